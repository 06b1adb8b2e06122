// The lent words: where each field stands, the node part, the table of phases, and the ranges.
#![tactic(auto)]

pub mod damage;
pub mod fields;
pub mod limits;
pub mod nodes;
pub mod offsets;
pub mod phases;
pub mod sizes;
