// How a call ends: it is refused, or accepted; a step goes on, finishes, or ends with 11 or 12.
#![tactic(auto)]

pub mod reads;
pub mod reason;
pub mod record;
pub mod site;

ghost use Rattle.std.specs.Prelude.{◌≡◌, ◌+◌, ◌*◌, ◌<◌, ◌≤◌, length};
ghost use Rattle.definitions.specs.Cells.{written, cleared};
ghost use Rattle.definitions.specs.Answers.{finished, running, accepted, refusal};
ghost use Rattle.tables.specs.Ranges.{HasRecord};
ghost use Rattle.endings.specs.Ended.{number_of};
ghost use Rattle.endings.specs.Stepped.{moved_on};

use crate::reason::{Reason, refuse};
use crate::record::{IDLE, write_record};
use definitions::Answer;
use tables::fields::{HEADER_WORDS, PHASE, STEPS, WORKER_WORDS};

// A call that is not a step, and is not refused. Its code, as those below, is C's number (definitions, Answer).
pub fn accept(value: u64) -> Answer
    ensures { result ≡ accepted value }
{
    Answer {
        code: 2,
        value,
        steps: 0,
        stamped: 0,
        operator: 0,
    }
}

// The step is counted, and worker w goes on at a phase.
pub fn go_on(words: &mut [u32], w: usize, phase: u32, steps: u32) -> Answer
    requires { HasRecord w words.old × (steps < 5121) }
    ensures { (result ≡ running (steps + 1)) × (words.new ≡ moved_on words.old w phase (steps + 1)) }
{
    let at = HEADER_WORDS + WORKER_WORDS * w;
    words[at + PHASE] = phase;
    words[at + STEPS] = steps + 1;
    Answer {
        code: 1,
        value: 0,
        steps: steps + 1,
        stamped: 0,
        operator: 0,
    }
}

// The operation ends with an answer, and worker w is idle.
pub fn finish(words: &mut [u32], w: usize, value: u64, steps: u32) -> Answer
    requires { HasRecord w words.old × (steps < 5121) }
    ensures { (result ≡ finished value (steps + 1)) × (words.new ≡ written 0 0 words.old (cleared w)) }
{
    write_record(words, w, IDLE);
    Answer {
        code: 0,
        value,
        steps: steps + 1,
        stamped: 0,
        operator: 0,
    }
}

// The operation ends with 11 or 12, and worker w is idle.
pub fn end_with(words: &mut [u32], w: usize, reason: Reason, steps: u32) -> Answer
    requires { HasRecord w words.old × (steps < 5121) }
    ensures { (result ≡ refusal (number_of reason) (steps + 1)) × (words.new ≡ written 0 0 words.old (cleared w)) }
{
    write_record(words, w, IDLE);
    Answer {
        steps: steps + 1,
        ..refuse(reason)
    }
}
