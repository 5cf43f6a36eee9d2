// Theorems about the serialised form alone: no code stands here.
#![tactic(auto)]
