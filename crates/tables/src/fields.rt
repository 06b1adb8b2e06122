// Where each field stands: docs/FIELDS.md is this file for people, definitions/specs/Cells.antt for the proofs.
// The words are C's, so a field is a place among them, and no struct is laid over them.

pub const HEADER_WORDS: usize = 16;

pub const WORKER_WORDS: usize = 16;

pub const ITEM_WORDS: usize = 4;

pub const NODE_WORDS: usize = 3;

// the header
pub const WORKERS: usize = 0;

pub const ITEMS_LIMIT: usize = 1;

pub const NODES_LIMIT: usize = 2;

pub const PROJECTS: usize = 3;

pub const COUNTER_LIMIT: usize = 4;

pub const COUNTER: usize = 5;

pub const ITEMS: usize = 6;

pub const USED: usize = 7;

pub const GIVEN_BACK: usize = 8;

// a worker's record
pub const PHASE: usize = 0;

pub const STEPS: usize = 1;

pub const ITEM: usize = 2;

pub const OLD: usize = 3;

pub const NEW: usize = 4;

pub const HANDLE: usize = 5;

pub const PROJECT: usize = 6;

pub const NOTED: usize = 7;

pub const NODE: usize = 8;

pub const NEW_NODE: usize = 9;

pub const SEEN: usize = 10;

pub const SUM_LOW: usize = 11;

pub const SUM_HIGH: usize = 12;

// an item's record
pub const HEAD: usize = 0;

pub const BIRTH: usize = 1;

pub const SIZE: usize = 2;

// a node's record
pub const VALUE: usize = 0;

pub const OLDER: usize = 1;

pub const STAMP: usize = 2;

// The stamp of a node that is still to be decided: a word as C has it (docs/FIELDS.md), so no Option.
pub const TBD: u32 = 4294967295;
