// Each number of the calls occurs, and how: specs/ alone.
#![tactic(auto)]
