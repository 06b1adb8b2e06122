// Why a call, or a line of the schedule program, is refused: document 01's table of refusals.
ghost use Rattle.std.specs.Prelude.{◌≡◌};
ghost use Rattle.definitions.specs.Answers.{refusal};
ghost use Rattle.endings.specs.Ended.{number_of, answered};

use definitions::Answer;

#[derive(Clone, Copy, Debug, PartialEq, Eq)]
pub enum Reason {
    // make: a size outside its range, or too few lent words
    SizesOutside = 1,
    Damaged = 2,
    // the worker's number is P or more
    NoWorker = 3,
    // a start: the worker is in an operation
    Busy = 4,
    // a step or an abandon: the worker is idle
    Idle = 5,
    // the item's number is not registered
    NoItem = 6,
    // a project's number is Q or more
    NoProject = 7,
    // the handle is at or above the present counter
    NoHandle = 8,
    // readSnapshot: the handle is below the birth stamp
    BornLater = 9,
    // register: M items exist
    ItemsFull = 10,
    // no node waits, and all N were used
    NodesFull = 11,
    // takeSnapshot: the counter is C
    CounterFull = 12,
    // the schedule program: a line that is no frame
    BadFrame = 13,
}

// The answer of a refusal, which changes no word.
pub fn refuse(reason: Reason) -> Answer
    ensures { result ≡ refusal (number_of reason) 0 }
{
    Answer {
        code: 16 + reason as u32,
        value: 0,
        steps: 0,
        stamped: 0,
        operator: 0,
    }
}

// The answer of a call that came to one, or was refused.
pub fn answer_of(ended: Result<Answer, Reason>) -> Answer
    ensures { result ≡ answered ended }
{
    match ended {
        Ok(answer) => answer,
        Err(reason) => refuse(reason),
    }
}
