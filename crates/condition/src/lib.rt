// Conditions: which of several holds first, and tests as facts. Definitions and laws only.
#![tactic(auto)]
