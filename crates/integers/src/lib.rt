// Theorems about integers that are written and read back: no code stands here.
#![tactic(auto)]
