// The two plain types that the definitions of specs/ and the code share. There is no code here: the crates above it
// cite these definitions in their contracts, and the theorems about the history need nothing else.
#![tactic(auto)]

// What a call answers, in document 01's numbers, and two later ones, 0 today. In this order it has no gaps: 24 bytes, as with three numbers.
// No enum: C is given these numbers, and the theorems (Promises.Met, Told) speak of the code. Each code is written once, in endings.
#[derive(Drop)]
pub struct Answer {
    pub code: u32,
    pub steps: u32,
    pub value: u64,
    pub stamped: u32,
    pub operator: u32,
}

// One entry of the fixed table of phases. Numbers and no enum: the definitions' table (Phases) and what is proved of its rows have these; a line is the
// paper's number.
#[derive(Clone, Copy)]
pub struct PhaseRow {
    pub operation: u8,
    pub line: u8,
    pub may_answer: bool,
}
