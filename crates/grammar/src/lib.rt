// A format as a program of reads: definitions and laws, nothing that runs.
#![tactic(auto)]
