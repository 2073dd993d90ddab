// What is heard of a clip: every decoded frame, all at one rate, each of 2,304 finite samples: specs/ alone.
#![tactic(auto)]
