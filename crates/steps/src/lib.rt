// One step of a worker.
#![tactic(auto)]

pub mod dispatch;

ghost use Rattle.std.specs.Prelude.{◌≡◌, false, ◌&&◌, ◌+◌, ◌*◌, get_or};
ghost use Rattle.definitions.specs.Cells.{cells_at, cells_of, items_offset, nodes_offset, item};
ghost use Rattle.definitions.specs.Phases.{row_of};
ghost use Rattle.definitions.specs.Damage.{inside_item, item_damaged};
ghost use Rattle.definitions.specs.Calls.{outcome, stepping};
ghost use Rattle.definitions.specs.Calls.Call.{step};
ghost use Rattle.definitions.specs.Promises.{Met, Done};
ghost use Rattle.endings.specs.Ended.{answered};
ghost use Rattle.steps.specs.Dispatch.{FitAt};
ghost use Rattle.facts.specs.Facts.{Header, Busy, busy_step};

use crate::dispatch::run_row;
use definitions::{Answer, PhaseRow};
use endings::reason::{Reason, answer_of, refuse};
use endings::site::Site;
use tables::damage::{header_is_damaged, item_is_damaged, steps_or_arguments_are_damaged};
use tables::fields::{HEADER_WORDS, ITEM, PHASE, WORKER_WORDS, WORKERS};
use tables::offsets::{items_offset, nodes_offset};
use tables::phases::{CLOSING_PHASE, TAKE_SNAPSHOT, row_at};

// The item that a running operation is inside of, where it is inside of one.
fn its_item_is_damaged(words: &[u32], site: Site, row: PhaseRow) -> bool
    requires { FitAt site row words.now }
    ensures { let m = cells_at site.items_at site.nodes_at words.now in
        result ≡ inside_item row && item_damaged m (m (item site.worker)) }
{
    if row.operation == TAKE_SNAPSHOT {
        return false;
    }
    if row.line == 0 {
        return false;
    }
    let i = words[HEADER_WORDS + WORKER_WORDS * site.worker + ITEM] as usize;
    item_is_damaged(words, site.items_at, i)
}

// A step of a busy worker whose step count and arguments are not damaged, at the row of its phase.
fn step_busy(words: &mut [u32], w: usize, row: PhaseRow) -> Result<Answer, Reason>
    requires { Header words.old × Busy w words.old × (row ≡ row_of (get_or words.old (16 + 16 * w + 0) 0)) }
    ensures { Met (items_offset words.old) (nodes_offset words.old) words.old (busy_step (cells_of words.old) w) (answered result) words.new }
{
    let site = Site {
        items_at: items_offset(words),
        nodes_at: nodes_offset(words),
        worker: w,
    };
    if its_item_is_damaged(words, site, row) {
        return Err(Reason::Damaged);
    }
    run_row(words, site, row)
}

// A step where the header is not damaged. The table of phases is consulted once, for the damage test and for the line.
fn step_sound(words: &mut [u32], worker: u32) -> Result<Answer, Reason>
    requires { Header words.old }
    ensures { Met (items_offset words.old) (nodes_offset words.old) words.old (stepping (cells_of words.old) worker) (answered result) words.new }
{
    if words[WORKERS] <= worker {
        return Err(Reason::NoWorker);
    }
    let w = worker as usize;
    let phase = words[HEADER_WORDS + WORKER_WORDS * w + PHASE];
    if CLOSING_PHASE < phase {
        return Err(Reason::Damaged);
    }
    if phase == 0 {
        return Err(Reason::Idle);
    }
    let row = row_at(phase as usize);
    if steps_or_arguments_are_damaged(words, w, row) {
        return Err(Reason::Damaged);
    }
    step_busy(words, w, row)
}

// A step of a worker, on any words. Register and abandon begin so too; what follows differs, and a closure for it is no plainer.
pub fn step(words: &mut [u32], worker: u32) -> Answer
    ensures { Done (outcome words.old (step worker)) result words.new }
{
    if header_is_damaged(words) {
        return refuse(Reason::Damaged);
    }
    answer_of(step_sound(words, worker))
}
