#![tactic(auto)]

// Theorems over the definitions: the fifteen runs, may-answer, and document 01's damage and refusals from the other side (specs). There is no code here.
