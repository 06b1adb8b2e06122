// Algorithm 1 in code: one small function for each line, each writing only the words that its line changes, in place.
// Every contract says that the function does its line of definitions/specs/Lines.antt, answer and every word.
// Here are the lines of takeSnapshot and the last of vRead; the crates help, change and walk have the others.
#![tactic(auto)]

pub mod snapshot;
pub mod vread;
