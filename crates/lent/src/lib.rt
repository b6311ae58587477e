// Lent buffers: what a call leaves in one. Definitions and laws only.
#![tactic(auto)]
