// Lines 5 and 6, takeSnapshot.
ghost use Rattle.std.specs.Prelude.{◌+◌, ◌*◌, ◌<◌, get_or};
ghost use Rattle.definitions.specs.Lines.{line, no_words, line_5, line_6};
ghost use Rattle.endings.specs.Stepped.{StepsAt, ReadyAt};

use definitions::Answer;
use endings::reason::Reason;
use endings::site::Site;
use endings::{end_with, finish, go_on};
use tables::fields::{COUNTER, COUNTER_LIMIT, HEADER_WORDS, PHASE, SEEN, STEPS, WORKER_WORDS};

// Line 5: the counter is read, unless it has reached its limit.
pub fn line_5(words: &mut [u32], site: Site) -> Answer
    requires { ReadyAt site words.old }
    ensures { StepsAt (line no_words line_5) site words.old result words.new }
{
    let at = HEADER_WORDS + WORKER_WORDS * site.worker;
    let phase = words[at + PHASE];
    let steps = words[at + STEPS];
    if words[COUNTER_LIMIT] <= words[COUNTER] {
        return end_with(words, site.worker, Reason::CounterFull, steps);
    }
    words[at + SEEN] = words[COUNTER];
    go_on(words, site.worker, phase + 1, steps)
}

// Line 6: the counter is moved on from the number read, if it still is that number, which is answered either way.
pub fn line_6(words: &mut [u32], site: Site) -> Answer
    requires { ReadyAt site words.old × (get_or words.old (16 + 16 * site.worker + 10) 0 < get_or words.old 4 0) }
    ensures { StepsAt (line no_words line_6) site words.old result words.new }
{
    let at = HEADER_WORDS + WORKER_WORDS * site.worker;
    let steps = words[at + STEPS];
    let seen = words[at + SEEN];
    if words[COUNTER] == seen {
        words[COUNTER] = seen + 1;
    }
    finish(words, site.worker, seen as u64, steps)
}
