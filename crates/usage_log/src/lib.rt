// Theorems only: the usage log is kept by texts, by nights logged and by the restart.
#![tactic(auto)]
