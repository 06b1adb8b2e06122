// What the soak notes, in lent numbers: the generator's number, the counts. A place that is not there reads as 0 and is
// never written. They stay a slice of numbers: the public functions here and the draws take one of any length, and a struct would ask more of who calls them.
ghost use Rattle.std.specs.Prelude.{◌+◌, ◌^◌, ◌<◌, SomeIff};

pub const NOTES: usize = 2048;

pub const STATE: usize = 0;

pub const SEED: usize = 1;

pub const ROUNDS: usize = 2;

pub const COMPARED: usize = 3;

pub const DIFFER: usize = 4;

pub const CATALOGUES: usize = 5;

pub const LOGGED: usize = 6;
// Calls that are left to the present catalogue.
pub const LIFE: usize = 7;
// Whether the present catalogue has arguments or lent words that no frame can say.
pub const WIDE: usize = 8;

pub const FIRST_AT: usize = 9;
// Items that are still to be registered before the workers begin.
pub const WAITING: usize = 10;
// Whether workers of the present catalogue are abandoned now and then.
pub const WITH_ABANDONS: usize = 11;

pub const ABANDONS: usize = 12;

// A row of counts by number, of the numbers below a limit.
#[derive(Clone, Copy)]
pub struct Row {
    pub start: usize,
    pub limit: u32,
}

pub const REFUSALS: Row = Row {
    start: 32,
    limit: 16,
};
// Phases entered.
pub const PHASES: Row = Row {
    start: 64,
    limit: 36,
};
// The longest operation that finished at a phase.
pub const LONGEST: Row = Row {
    start: 128,
    limit: 36,
};
// Workers abandoned at a phase.
pub const ABANDONED: Row = Row {
    start: 192,
    limit: 36,
};
// Moves from phase to phase.
pub const MOVES: Row = Row {
    start: 256,
    limit: 1296,
};

impl Row {
    // The place of a number's count.
    pub fn place(self, number: u32) -> Option<usize>
        ensures { SomeIff result ((number < self.limit) × (self.start + number < 2 ^ 64)) (self.start + number) }
    {
        if self.limit <= number {
            return None;
        }
        self.start.checked_add(number as usize)
    }
}

// The place of the move from a phase to a phase.
pub fn move_place(before: u32, after: u32) -> Option<usize> {
    if before < 36 && after < 36 {
        return MOVES.place(36 * before + after);
    }
    None
}

// Where no place is said, as of a number beyond its row, none is read or written either.
pub fn get(tally: &[u64], at: impl Into<Option<usize>>) -> u64 {
    match at.into() {
        Some(at) => tally.get(at).copied().unwrap_or(0),
        None => 0,
    }
}

fn noted(tally: &mut [u64], at: impl Into<Option<usize>>) -> Option<&mut u64> {
    tally.get_mut(at.into()?)
}

pub fn put(tally: &mut [u64], at: impl Into<Option<usize>>, number: u64) {
    if let Some(noted) = noted(tally, at) {
        *noted = number;
    }
}

pub fn count(tally: &mut [u64], at: impl Into<Option<usize>>) {
    if let Some(noted) = noted(tally, at) {
        *noted = noted.wrapping_add(1);
    }
}

// The larger of what is noted and a number.
pub fn raise(tally: &mut [u64], at: impl Into<Option<usize>>, number: u64) {
    if let Some(noted) = noted(tally, at) {
        *noted = number.max(*noted);
    }
}

// One less, where that is there.
pub fn lower(tally: &mut [u64], at: impl Into<Option<usize>>) {
    if let Some(noted) = noted(tally, at) {
        *noted = noted.saturating_sub(1);
    }
}
