// The longest total that there is, 5,121 steps: 256 items and 4,096 nodes, every node but the first ones published above the
// handle, and each item's last version still without its stamp when the total comes to it. The calls by their number, which is no kind, so it
// is matched by ranges.
use model::history::present_value;
use tally::frames::{Call, Operation, make_of};

pub const CALLS: u64 = 43270;

// Worker 1 starts a change of an item, from project 0 to 1 or back.
fn change_of(memory: &[usize], item: u32) -> Call {
    let is_changed = present_value(memory, item as usize) != 0;
    let old = u32::from(is_changed);
    let new = u32::from(!is_changed);
    Call::Start {
        worker: 1,
        operation: Operation::VCas { item, old, new },
    }
}

// Fourteen whole changes of each item, ten calls a change.
fn changing(memory: &[usize], number: u32) -> Call {
    if number % 10 == 0 {
        return change_of(memory, number / 140);
    }
    Call::Step { worker: 1 }
}

// Each item's fifteenth change stops when it has published; the total passes the item in twenty steps; the change ends.
fn passing(memory: &[usize], number: u32) -> Call {
    match number % 28 {
        0 => change_of(memory, number / 28),
        6..26 => Call::Step { worker: 0 },
        _ => Call::Step { worker: 1 },
    }
}

// 256 items, and a snapshot.
fn preparing(number: u32) -> Call {
    match number {
        ..256 => Call::Register {
            value: 1,
            size: 65535,
        },
        256 => Call::Start {
            worker: 0,
            operation: Operation::TakeSnapshot,
        },
        _ => Call::Step { worker: 0 },
    }
}

pub fn call_at(memory: &[usize], number: u32) -> Call {
    match number {
        0 => make_of(2, 256, 4096, 2, 1),
        1..260 => preparing(number - 1),
        260..36100 => changing(memory, number - 260),
        36100 => Call::Start {
            worker: 0,
            operation: Operation::Total {
                project: 1,
                handle: 0,
            },
        },
        36101..43269 => passing(memory, number - 36101),
        _ => Call::Step { worker: 0 },
    }
}
