// Definitions and laws that every floor uses: nothing here runs.
#![tactic(auto)]
