#![tactic(auto)]

// Demands 2 and 3 of the words, and so of the calls that C makes (specs/Theorems). There is no code here.
