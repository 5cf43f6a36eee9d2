// Theorems about what a load makes of a file: no code stands here.
#![tactic(auto)]
