// The calls, on numbers and slices, with their answers by value: each contract gives the answer and every lent word, on any words.
// The crate steps has the step.
#![tactic(auto)]

pub mod make;
pub mod register;
pub mod start;
