// Theorems only: a board on four lines and a board on eight tell the same story.
#![tactic(auto)]
