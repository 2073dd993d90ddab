// Demand 3 as theorems: specs/ alone.
#![tactic(auto)]
