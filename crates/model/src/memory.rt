// The numbers that the model keeps, in memory that the caller lends. A column has one number for each worker, each item or
// each version. A place that is not there reads as 0 and is not written, so no call asks anything of its caller.
// It stays a slice of numbers: the public functions take one of any length and contents, and a struct would ask more of who calls them; and there is no heap.

// How many numbers the caller lends, all 0 at first.
pub const MEMORY: usize = 35072;

// Single numbers. NEEDED is 0 before any make, and at least 39 after one.
pub const WORKERS: usize = 0;

pub const PROJECTS: usize = 1;

pub const COUNTER: usize = 2;

pub const ITEMS: usize = 3;

pub const NEEDED: usize = 4;

pub const MOST_ITEMS: usize = 5;

pub const NODES: usize = 6;

pub const LARGEST_COUNTER: usize = 7;
// How many nodes are published or held by a vCAS between 45 and 50: refusal 11 is this count being N.
pub const TAKEN: usize = 8;
// How much of the two columns of versions is given out.
pub const GIVEN_OUT: usize = 9;

// Columns with a number for each of 64 workers: what a Record reads and writes, which the crate model_operations has.
pub const OPERATION: usize = 64;

pub const STEPS: usize = 128;

pub const ITEM: usize = 192;

pub const OLD: usize = 256;

pub const NEW: usize = 320;

pub const HANDLE: usize = 384;

pub const PROJECT: usize = 448;

pub const NOTED: usize = 512;
// The number of the step that fetches the head (37, 41, 32, 51), or that published the own version (46).
pub const FETCH: usize = 576;
// Which version of the item that step found newest, counted from 0.
pub const VERSION: usize = 640;
// 1 where line 20 found TBD.
pub const FOUND_TBD: usize = 704;
// The counter as line 21 or line 5 read it.
pub const COUNTER_READ: usize = 768;
// The number of the step that does the last test of line 34.
pub const LAST_TEST: usize = 832;
// How line 46 went.
pub const OUTCOME: usize = 896;
// 1 where the worker has taken a node at 45 that is neither published nor given back.
pub const HOLDS: usize = 960;

// Columns with a number for each of 256 items. The item's history is a row in the columns of versions.
pub const ROW: usize = 1024;

pub const ROOM: usize = 1280;

pub const VERSIONS: usize = 1536;

pub const STAMPED: usize = 1792;

pub const SIZE: usize = 2048;

// Columns of versions. A row that is full moves to a new one of twice its room, so v versions use fewer than 4v places,
// and 4,096 nodes fewer than 16,384.
pub const VALUES: usize = 2304;

pub const STAMPS: usize = 18688;

// The number at a place, and 0 where it is not there.
pub fn get(memory: &[usize], at: usize) -> usize {
    memory.get(at).copied().unwrap_or(0)
}

pub fn put(memory: &mut [usize], at: usize, number: usize) {
    if let Some(place) = memory.get_mut(at) {
        *place = number;
    }
}

// What a column has for a worker, an item or a version. No sum of the model's wraps, since its numbers stay below 2^41;
// the sums are wrapping ones so that nothing has to be proved of what was read.
pub fn field(memory: &[usize], column: usize, number: usize) -> usize {
    get(memory, column.wrapping_add(number))
}

pub fn set_field(memory: &mut [usize], column: usize, number: usize, to: usize) {
    put(memory, column.wrapping_add(number), to);
}
