// Definitions only: the header, the audio data and the values of a Layer II frame, by ISO/IEC 11172-3 and nothing of the port.
#![tactic(auto)]
