// The calls, and the log of those since the last make, which is shown as frames, as the schedule program reads them.
ghost use Rattle.std.specs.Prelude.{◌≡◌, ◌<◌, ◌≤◌};
ghost use Rattle.tally.specs.declared.frames.Call.TheVariants.{Make};

use crate::notes::{LOGGED, count, get};
use std::{fmt, io};

// What a worker can start.
#[derive(Clone, Copy)]
pub enum Operation {
    VRead { item: u32 },
    VCas { item: u32, old: u32, new: u32 },
    TakeSnapshot,
    ReadSnapshot { item: u32, handle: u32 },
    Total { project: u32, handle: u32 },
}

// Not the Frame of crate frames, which has no abandon and a start in five variants: soak asks for the phase of any start.
#[derive(Clone, Copy)]
pub enum Call {
    Make {
        workers: u32,
        items: u32,
        nodes: u32,
        projects: u32,
        counter: u32,
    },
    Register {
        value: u32,
        size: u32,
    },
    Start {
        worker: u32,
        operation: Operation,
    },
    Step {
        worker: u32,
    },
    Abandon {
        worker: u32,
    },
}

pub fn make_of(workers: u32, items: u32, nodes: u32, projects: u32, counter: u32) -> Call
    ensures { result ≡ Make workers items nodes projects counter }
{
    Call::Make {
        workers,
        items,
        nodes,
        projects,
        counter,
    }
}

// For the log: the first number of a call's frame, 9 for an abandon, and five arguments.
impl Call {
    ghost use Rattle.tally.specs.Log.{call_of};

    fn numbers(self) -> (u32, [u32; 5])
        ensures back { call_of result.0 result.1 ≡ self }
        ensures small { result.0 < 16 }
    {
        match self {
            Call::Make {
                workers,
                items,
                nodes,
                projects,
                counter,
            } => (1, [workers, items, nodes, projects, counter]),
            Call::Register { value, size } => (2, [value, size, 0, 0, 0]),
            Call::Start { worker, operation } => operation.numbers(worker),
            Call::Step { worker } => (8, [worker, 0, 0, 0, 0]),
            Call::Abandon { worker } => (9, [worker, 0, 0, 0, 0]),
        }
    }

    // The way back. What is no call's number is read as an abandon's.
    fn of(first: u32, arguments: [u32; 5]) -> Call
        ensures { result ≡ call_of first arguments }
    {
        let [worker, b, c, d, e] = arguments;
        let operation = match first {
            1 => return make_of(worker, b, c, d, e),
            2 => return Call::Register {
                value: worker,
                size: b,
            },
            3 => Operation::VRead { item: b },
            4 => Operation::VCas {
                item: b,
                old: c,
                new: d,
            },
            5 => Operation::TakeSnapshot,
            6 => Operation::ReadSnapshot { item: b, handle: c },
            7 => Operation::Total {
                project: b,
                handle: c,
            },
            8 => return Call::Step { worker },
            _ => return Call::Abandon { worker },
        };
        Call::Start { worker, operation }
    }
}

impl Operation {
    ghost use Rattle.tally.specs.Log.{call_of};
    ghost use Rattle.tally.specs.declared.frames.Call.TheVariants.{Start};

    fn numbers(self, worker: u32) -> (u32, [u32; 5])
        ensures back { call_of result.0 result.1 ≡ Start worker self }
        ensures small { result.0 < 16 }
    {
        match self {
            Operation::VRead { item } => (3, [worker, item, 0, 0, 0]),
            Operation::VCas { item, old, new } => (4, [worker, item, old, new, 0]),
            Operation::TakeSnapshot => (5, [worker, 0, 0, 0, 0]),
            Operation::ReadSnapshot { item, handle } => (6, [worker, item, handle, 0, 0]),
            Operation::Total { project, handle } => (7, [worker, project, handle, 0, 0]),
        }
    }
}

// Its frame. There is none for an abandon, which is shown by its name.
impl fmt::Display for Call {
    fn fmt<W: fmt::Write>(&self, f: &mut fmt::Formatter<W>) -> fmt::Result {
        match *self {
            Call::Make {
                workers,
                items,
                nodes,
                projects,
                counter,
            } => write!(
                f,
                "01{workers:04x}{items:04x}{nodes:04x}{projects:04x}{counter:04x}"
            ),
            Call::Register { value, size } => write!(f, "02{value:04x}{size:04x}"),
            Call::Start { worker, operation } => show_start(f, worker, operation),
            Call::Step { worker } => write!(f, "08{worker:04x}"),
            Call::Abandon { worker } => write!(f, "abandon {worker:04x}"),
        }
    }
}

fn show_start<W: fmt::Write>(
    f: &mut fmt::Formatter<W>,
    worker: u32,
    operation: Operation,
) -> fmt::Result {
    match operation {
        Operation::VRead { item } => write!(f, "03{worker:04x}{item:04x}"),
        Operation::VCas { item, old, new } => {
            write!(f, "04{worker:04x}{item:04x}{old:04x}{new:04x}")
        }
        Operation::TakeSnapshot => write!(f, "05{worker:04x}"),
        Operation::ReadSnapshot { item, handle } => {
            write!(f, "06{worker:04x}{item:04x}{handle:04x}")
        }
        Operation::Total { project, handle } => {
            write!(f, "07{worker:04x}{project:04x}{handle:04x}")
        }
    }
}

// As many words as the schedule program lends.
pub const WHOLE: usize = 16384;

// A call, and how many words are lent to it.
#[derive(Clone, Copy)]
pub struct Lent {
    pub call: Call,
    pub words: usize,
}

impl From<Call> for Lent {
    ghost use Rattle.tally.specs.declared.frames.TheConstants.{WHOLE};

    ghost from_gives = { λ call lent. lent ≡ record { call = call; words = WHOLE } };

    fn from(call: Call) -> Lent {
        Lent { call, words: WHOLE }
    }
}

// How many calls the log of the soak holds.
pub const MOST: u64 = 52000;

// For the log, where a call's first number and the lent words share one: a call takes six numbers so.
impl Lent {
    ghost use Rattle.tally.specs.Log.{lent_of};
    ghost use Rattle.tally.specs.declared.frames.TheConstants.{WHOLE};

    pub fn numbers(self) -> [u32; 6]
        ensures { self.words ≤ WHOLE → lent_of result ≡ self }
    {
        let words = self.words.min(WHOLE) as u32;
        let (first, [a, b, c, d, e]) = self.call.numbers();
        [words * 16 + first, a, b, c, d, e]
    }

    fn of(numbers: [u32; 6]) -> Lent
        ensures { result ≡ lent_of numbers }
    {
        let [first, a, b, c, d, e] = numbers;
        Lent {
            call: Call::of(first % 16, [a, b, c, d, e]),
            words: (first / 16) as usize,
        }
    }
}

// What no frame can say, fewer words lent than the schedule program lends, stands behind it.
impl fmt::Display for Lent {
    fn fmt<W: fmt::Write>(&self, f: &mut fmt::Formatter<W>) -> fmt::Result {
        let call = self.call;
        let words = self.words;
        if words < WHOLE {
            return write!(f, "{call} words lent: {words}");
        }
        write!(f, "{call}")
    }
}

// Logs a call by its numbers. One that the log has no room for is counted all the same.
pub fn log_call(log: &mut [u32], tally: &mut [u64], call: [u32; 6]) {
    let number = get(tally, LOGGED);
    let (calls, _) = log.as_chunks_mut::<6>();
    if let Some(entry) = calls.get_mut(number as usize) {
        *entry = call;
    }
    count(tally, LOGGED);
}

// Every call of the log, the one that differs last.
pub fn show(rt: &impl Print, log: &[u32], tally: &[u64]) -> io::Result<()> {
    println!(rt; "a difference; the calls that lead to it, as frames:")?;
    let (calls, _) = log.as_chunks::<6>();
    for numbers in calls.iter().take(get(tally, LOGGED) as usize) {
        let call = Lent::of(*numbers);
        println!(rt; "{call}")?;
    }
    Ok(())
}
