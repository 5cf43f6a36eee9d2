// Theorems about saved program files: no code stands here.
#![tactic(auto)]
