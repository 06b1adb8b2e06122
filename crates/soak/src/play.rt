// Which calls are made. A round draws a worker, starts an operation where it rests and steps it where it does not; now
// and then an item is registered, a call is made that may be refused for several reasons, or a new catalogue is made.
// In half of the catalogues workers are abandoned now and then; in the others long operations come to their end, and frames can say the calls.
use crate::both::Bench;
use crate::longest;
use model::history::present_value;
use model::memory::{COUNTER, ITEMS, NEEDED, PROJECTS, WORKERS, get};
use model_operations::abandons::holds_node;
use model_operations::starts::is_resting;
use tally::draws::{among, draw, from_one, narrow, once_in, wide_draw};
use tally::frames::{Call, Lent, Operation, make_of};
use tally::notes::{LIFE, LOGGED, WAITING, WIDE, WITH_ABANDONS, get as noted, lower, put as note};

// A catalogue's style, of 16: one is large, four have few nodes and snapshots, one has wide arguments, the others are small.
#[derive(Clone, Copy, PartialEq, Eq)]
enum Style {
    Large,
    Few,
    Small,
    Wide,
}

fn draw_style(tally: &mut [u64]) -> Style {
    match among(tally, 16) {
        0 => Style::Large,
        1..5 => Style::Few,
        15 => Style::Wide,
        _ => Style::Small,
    }
}

// A size by style.
fn by_style(tally: &mut [u64], style: Style, large: u32, few: u32, small: u32) -> u32 {
    let most = match style {
        Style::Large => large,
        Style::Few => few,
        Style::Small | Style::Wide => small,
    };
    from_one(tally, most)
}

fn counter_limit(tally: &mut [u64], style: Style) -> u32 {
    if style == Style::Wide {
        return 4294967294;
    }
    by_style(tally, style, 65535, 3, 60)
}

// What is noted of a new catalogue.
#[derive(Drop)]
struct Catalogue {
    is_wide: bool,
    with_abandons: bool,
    life: u32,
    waiting: u32,
}

// The log starts anew with a catalogue.
fn note_catalogue(tally: &mut [u64], catalogue: &Catalogue) {
    note(tally, WIDE, u64::from(catalogue.is_wide));
    note(tally, WITH_ABANDONS, u64::from(catalogue.with_abandons));
    note(tally, LOGGED, 0);
    note(tally, LIFE, u64::from(catalogue.life));
    note(tally, WAITING, u64::from(catalogue.waiting));
}

// Whether a note that is 0 or 1 is 1.
fn is_noted(tally: &[u64], at: usize) -> bool {
    noted(tally, at) != 0
}

// A new catalogue with sizes drawn by style, and some items to register; now and then with none.
fn new_catalogue(tally: &mut [u64]) -> Call {
    let style = draw_style(tally);
    let workers = by_style(tally, style, 64, 5, 5);
    let items = by_style(tally, style, 256, 4, 4);
    let nodes = by_style(tally, style, 4096, 7, 90);
    let projects = by_style(tally, style, 256, 4, 4);
    let counter = counter_limit(tally, style);
    let life = by_style(tally, style, 16000, 600, 900);
    let waiting = among(tally, items.wrapping_add(1));
    let catalogue = Catalogue {
        is_wide: style == Style::Wide,
        with_abandons: among(tally, 2) == 1,
        life,
        waiting,
    };
    note_catalogue(tally, &catalogue);
    make_of(workers, items, nodes, projects, counter)
}

fn item_size(tally: &mut [u64]) -> u32 {
    if is_noted(tally, WIDE) {
        return wide_draw(tally);
    }
    draw(tally)
}

// The sizes of makes of which one is just outside its range.
static BAD_MAKES: [[u32; 5]; 9] = [
    [0, 1, 1, 1, 1],
    [65, 256, 4096, 256, 1],
    [64, 0, 1, 1, 1],
    [1, 257, 1, 1, 1],
    [1, 1, 0, 1, 1],
    [1, 1, 4097, 1, 1],
    [1, 1, 1, 0, 1],
    [1, 1, 1, 257, 1],
    [1, 1, 1, 1, 0],
];

fn bad_make(which: u32) -> Call {
    let [workers, items, nodes, projects, counter] = BAD_MAKES[which as usize % BAD_MAKES.len()];
    make_of(workers, items, nodes, projects, counter)
}

// What no frame can say: fewer words lent than are needed, or just as many; C beyond its range.
fn beyond_frames(which: u32, worker: u32, needed: usize) -> Lent {
    let operation = Operation::TakeSnapshot;
    let (call, words) = match which {
        0 => (Call::Step { worker }, needed),
        1 => (Call::Step { worker }, needed.saturating_sub(1)),
        2 => (Call::Start { worker, operation }, 15),
        3 => (make_of(1, 1, 1, 1, 1), 38),
        4 => return make_of(1, 1, 1, 1, 4294967295).into(),
        5 => (Call::Abandon { worker }, needed),
        6 => (Call::Abandon { worker }, needed.saturating_sub(1)),
        _ => (Call::Register { value: 0, size: 1 }, 38),
    };
    Lent { call, words }
}

// A step; in a catalogue with abandons, one time in some, an abandon.
fn step_or_abandon(tally: &mut [u64], worker: u32, some: u32) -> Call {
    if is_noted(tally, WITH_ABANDONS) && once_in(tally, some) {
        return Call::Abandon { worker };
    }
    Call::Step { worker }
}

// Before any make, every call but make is refused 2.
static EARLY_CALLS: [Call; 9] = [
    Call::Make {
        workers: 0,
        items: 1,
        nodes: 1,
        projects: 1,
        counter: 1,
    },
    Call::Register { value: 0, size: 0 },
    Call::Start {
        worker: 0,
        operation: Operation::VRead { item: 0 },
    },
    Call::Start {
        worker: 0,
        operation: Operation::VCas {
            item: 0,
            old: 0,
            new: 0,
        },
    },
    Call::Start {
        worker: 0,
        operation: Operation::TakeSnapshot,
    },
    Call::Start {
        worker: 0,
        operation: Operation::ReadSnapshot { item: 0, handle: 0 },
    },
    Call::Start {
        worker: 0,
        operation: Operation::Total {
            project: 0,
            handle: 0,
        },
    },
    Call::Step { worker: 0 },
    Call::Abandon { worker: 0 },
];

// How many calls a run of that many rounds makes.
pub fn calls_in_all(rounds: u64) -> u64 {
    rounds.wrapping_add(EARLY_CALLS.len() as u64 + longest::CALLS)
}

// Calls are drawn from the model's memory, which knows what the present catalogue takes, and the notes. With slack an
// argument may be just past its limit, so that the call may be refused.
impl Bench {
    // A draw below a limit of the present catalogue.
    fn below(&mut self, which: usize, slack: u32) -> u32 {
        let limit = narrow(get(&self.memory, which));
        among(&mut self.tally, limit.wrapping_add(slack))
    }

    fn registering(&mut self, slack: u32) -> Call {
        let value = self.below(PROJECTS, slack);
        let size = item_size(&mut self.tally);
        Call::Register { value, size }
    }

    // vCAS's old value: mostly the item's present one, so that changes happen.
    fn old_value(&mut self, item: u32, slack: u32) -> u32 {
        if once_in(&mut self.tally, 4) {
            return self.below(PROJECTS, slack);
        }
        narrow(present_value(&self.memory, item as usize))
    }

    // One of the five operations.
    fn starting(&mut self, worker: u32, slack: u32) -> Call {
        let which = among(&mut self.tally, 16);
        let item = self.below(ITEMS, slack);
        let handle = self.below(COUNTER, slack);
        let old = self.old_value(item, slack);
        let new = self.below(PROJECTS, slack);
        let operation = match which {
            0..2 => Operation::VRead { item },
            2..4 => Operation::TakeSnapshot,
            4..7 => Operation::ReadSnapshot { item, handle },
            7..9 => Operation::Total {
                project: new,
                handle,
            },
            _ => Operation::VCas { item, old, new },
        };
        Call::Start { worker, operation }
    }

    // A call that may be refused, for one reason or for several.
    fn odd_call(&mut self) -> Lent {
        let worker = self.below(WORKERS, 2);
        let call = match among(&mut self.tally, 16) {
            0 => bad_make(among(&mut self.tally, BAD_MAKES.len() as u32)),
            1..3 => self.registering(2),
            3..6 => step_or_abandon(&mut self.tally, worker, 2),
            6..8 if is_noted(&self.tally, WIDE) => {
                let which = among(&mut self.tally, 8);
                return beyond_frames(which, worker, get(&self.memory, NEEDED));
            }
            _ => self.starting(worker, 2),
        };
        call.into()
    }

    // The worker drawn as document 01 says: a start where it rests; where it does not a step, or an abandon, more often
    // where that gives a node back.
    fn turn(&mut self) -> Call {
        let worker = self.below(WORKERS, 0);
        if is_resting(&self.memory, worker as usize) {
            return self.starting(worker, 0);
        }
        let gives_back = holds_node(&self.memory, worker as usize);
        step_or_abandon(&mut self.tally, worker, if gives_back { 4 } else { 32 })
    }

    // A round's call.
    fn drawn_call(&mut self) -> Lent {
        if noted(&self.tally, LIFE) == 0 {
            return new_catalogue(&mut self.tally).into();
        }
        if 0 < noted(&self.tally, WAITING) {
            lower(&mut self.tally, WAITING);
            return self.registering(0).into();
        }
        match among(&mut self.tally, 64) {
            0 => self.registering(0).into(),
            1 => self.odd_call(),
            _ => self.turn().into(),
        }
    }

    // The longest total's first call starts the log anew.
    fn longest_call(&mut self, number: u32) -> Call {
        if number == 0 {
            let catalogue = Catalogue {
                is_wide: false,
                with_abandons: false,
                life: 60000,
                waiting: 0,
            };
            note_catalogue(&mut self.tally, &catalogue);
        }
        longest::call_at(&self.memory, number)
    }

    // The call after which some are left to come: the early ones, the rounds, the longest total.
    pub fn call_at(&mut self, rounds: u64, left: u64) -> Lent {
        if left < longest::CALLS {
            let number = (longest::CALLS - 1 - left) as u32;
            return self.longest_call(number).into();
        }
        let rest = left - longest::CALLS;
        if rest < rounds {
            return self.drawn_call();
        }
        EARLY_CALLS[(rest - rounds) as usize % EARLY_CALLS.len()].into()
    }
}
