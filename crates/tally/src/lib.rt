// What the soak draws, notes, logs and prints: all of it but the calls that it makes.
#![tactic(auto)]

pub mod draws;
pub mod frames;
pub mod notes;
pub mod report;
