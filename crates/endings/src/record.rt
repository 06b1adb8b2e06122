// The whole of a worker's record.
ghost use Rattle.std.specs.Prelude.{◌≡◌, ◌+◌, ◌*◌, ◌≤◌, length};
ghost use Rattle.definitions.specs.Cells.{written};
ghost use Rattle.tables.specs.Ranges.{HasRecord};
ghost use Rattle.endings.specs.Ended.{assigned};

use tables::fields::{
    HANDLE, HEADER_WORDS, ITEM, NEW, NEW_NODE, NODE, NOTED, OLD, PHASE, PROJECT, SEEN, STEPS,
    SUM_HIGH, SUM_LOW, WORKER_WORDS,
};

// A phase and an operation's arguments.
#[derive(Clone, Copy)]
pub struct Record {
    pub phase: u32,
    pub item: u32,
    pub old: u32,
    pub new: u32,
    pub handle: u32,
    pub project: u32,
    pub noted: u32,
}

pub const IDLE: Record = Record {
    phase: 0,
    item: 0,
    old: 0,
    new: 0,
    handle: 0,
    project: 0,
    noted: 0,
};

// All sixteen words of worker w's record are written: what is not given is zero.
pub fn write_record(words: &mut [u32], w: usize, fields: Record)
    requires { HasRecord w words.old }
    ensures { words.new ≡ written 0 0 words.old (assigned w fields) }
{
    let at = HEADER_WORDS + WORKER_WORDS * w;
    words[at + PHASE] = fields.phase;
    words[at + STEPS] = 0;
    words[at + ITEM] = fields.item;
    words[at + OLD] = fields.old;
    words[at + NEW] = fields.new;
    words[at + HANDLE] = fields.handle;
    words[at + PROJECT] = fields.project;
    words[at + NOTED] = fields.noted;
    words[at + NODE] = 0;
    words[at + NEW_NODE] = 0;
    words[at + SEEN] = 0;
    words[at + SUM_LOW] = 0;
    words[at + SUM_HIGH] = 0;
    words[at + 13] = 0;
    words[at + 14] = 0;
    words[at + 15] = 0;
}
