// A program's whole text in a lent buffer: how many bytes it has, or that the buffer is too short. Definitions and laws only.
#![tactic(auto)]
