// Abandon: a busy worker is idle at once. A node that it took at 45 and has not published goes back as line 50 returns it; its item is not used.
#![tactic(auto)]

pub mod record;

ghost use Rattle.std.specs.Prelude.{◌≡◌, [], ◌∷◌, ◌++◌, ℕ, ◌+◌, ◌*◌, ◌≤◌, length};
ghost use Rattle.definitions.specs.Answers.{◌⇒◌, unless, accepts, accepted};
ghost use Rattle.definitions.specs.Cells.{cells_at, cells_of, items_offset, nodes_offset, written, cleared};
ghost use Rattle.definitions.specs.Lines.{returning, returned_node};
ghost use Rattle.definitions.specs.Calls.{outcome, abandoning};
ghost use Rattle.definitions.specs.Calls.Call.{abandon};
ghost use Rattle.definitions.specs.Promises.{Met, Done};
ghost use Rattle.tables.specs.Ranges.{HasRecord};
ghost use Rattle.endings.specs.Ended.{answered};
ghost use Rattle.endings.specs.Stepped.{CanReturn};
ghost use Rattle.facts.specs.Facts.{Header};

use crate::record::{holds_node, record_is_damaged};
use change::{give_back, returned_is_damaged};
use definitions::Answer;
use endings::accept;
use endings::reason::{Reason, answer_of, refuse};
use endings::record::{IDLE, write_record};
use tables::damage::header_is_damaged;
use tables::fields::{HEADER_WORDS, PHASE, WORKER_WORDS, WORKERS};
use tables::offsets::nodes_offset;
use tables::phases::CLOSING_PHASE;

// The worker is idle.
fn clear(words: &mut [u32], w: usize) -> Answer
    requires { HasRecord w words.old }
    ensures { (result ≡ accepted 0) × (words.new ≡ written 0 0 words.old (cleared w)) }
{
    write_record(words, w, IDLE);
    accept(0)
}

// Abandon of a worker that holds a node: where its words are damaged, nothing changes. No Site: where the items start is not asked.
fn abandon_holding(words: &mut [u32], nodes_at: usize, w: usize) -> Result<Answer, Reason>
    requires { CanReturn nodes_at w words.old }
    ensures { (a : ℕ) → Met a nodes_at words.old
        (unless (returned_node (cells_at a nodes_at words.old) w ⇒ 2 ∷ []) (accepts 0 (returning (cells_at a nodes_at words.old) w ++ cleared w)))
        (answered result) words.new }
{
    if returned_is_damaged(words, nodes_at, w) {
        return Err(Reason::Damaged);
    }
    give_back(words, nodes_at, w);
    Ok(clear(words, w))
}

// Abandon where the header is not damaged.
fn abandon_sound(words: &mut [u32], worker: u32) -> Result<Answer, Reason>
    requires { Header words.old }
    ensures { Met (items_offset words.old) (nodes_offset words.old) words.old (abandoning (cells_of words.old) worker) (answered result) words.new }
{
    if words[WORKERS] <= worker {
        return Err(Reason::NoWorker);
    }
    let w = worker as usize;
    let phase = words[HEADER_WORDS + WORKER_WORDS * w + PHASE];
    if CLOSING_PHASE < phase {
        return Err(Reason::Damaged);
    }
    if phase == 0 {
        return Err(Reason::Idle);
    }
    if record_is_damaged(words, w, phase) {
        return Err(Reason::Damaged);
    }
    if holds_node(phase) {
        let nodes_at = nodes_offset(words);
        return abandon_holding(words, nodes_at, w);
    }
    Ok(clear(words, w))
}

// Abandon of a worker, on any words. Register and step begin so too; what follows differs, and a closure for it is no plainer.
pub fn abandon(words: &mut [u32], worker: u32) -> Answer
    ensures { Done (outcome words.old (abandon worker)) result words.new }
{
    if header_is_damaged(words) {
        return refuse(Reason::Damaged);
    }
    answer_of(abandon_sound(words, worker))
}
