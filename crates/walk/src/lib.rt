// The walk to the version at a handle: line 34 of readSnapshot, and a total's own lines.
#![tactic(auto)]

pub mod snapshot;
pub mod total;
