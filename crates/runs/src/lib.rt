// Theorems about the rules alone: no code stands here.
#![tactic(auto)]
