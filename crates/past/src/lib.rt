// A decoder's past: the calls since its opening, and what holds of every state and memory that they lead to: specs/ alone.
#![tactic(auto)]
