// What the person was promised, as theorems: specs/ alone.
#![tactic(auto)]
