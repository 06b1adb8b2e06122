// The model's operations: the five starts, the steps, and abandon.
#![tactic(auto)]

pub mod abandons;
pub mod starts;
pub mod stepping;
mod vcas;
pub mod workers;
