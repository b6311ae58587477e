// A bench record reads back as it was written. Definitions and theorems only.
#![tactic(auto)]
