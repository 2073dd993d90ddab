// Theorems only: what the port reads is what ISO/IEC 11172-3 says stands there, and where they part.
#![tactic(auto)]
