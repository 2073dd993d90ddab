// No value of the sound is a NaN or an infinity: specs/ alone.
#![tactic(auto)]
