// A worker's record: what the workers' columns have for it.
ghost use Rattle.std.specs.Prelude.{◌≡◌, ◌<◌};
ghost use Rattle.model_operations.specs.Numbers.{operation_number, IsOperationOf, outcome_number};

use model::memory::{FETCH, HOLDS, OPERATION, OUTCOME, STEPS, WORKERS, field, get, set_field};
use model::replies::Refusal;
use model::setup::is_damaged;

// In their column; 0 is an idle worker. `of` answers an Option and is no TryFrom: that a worker is idle is no error.
#[derive(Clone, Copy, PartialEq, Eq, Debug)]
pub enum Operation {
    VRead = 1,
    VCas,
    TakeSnapshot,
    ReadSnapshot,
    Total,
}

impl Operation {
    pub fn number(self) -> usize
        ensures { result ≡ operation_number self }
    {
        self as usize
    }

    pub fn of(number: usize) -> Option<Operation>
        ensures { IsOperationOf number result }
    {
        match number {
            1 => Some(Operation::VRead),
            2 => Some(Operation::VCas),
            3 => Some(Operation::TakeSnapshot),
            4 => Some(Operation::ReadSnapshot),
            5 => Some(Operation::Total),
            _ => None,
        }
    }
}

// How line 46 went.
#[derive(Clone, Copy, PartialEq, Eq, Debug)]
pub enum Outcome {
    NotYet,
    Succeeded,
    Failed,
}

impl Outcome {
    pub fn number(self) -> usize
        ensures { result ≡ outcome_number self }
    {
        self as usize
    }

    pub fn of(number: usize) -> Outcome
        ensures { number < 3 → outcome_number result ≡ number }
    {
        match number {
            1 => Outcome::Succeeded,
            2 => Outcome::Failed,
            _ => Outcome::NotYet,
        }
    }
}

// A worker that is in an operation, in the memory: a step reads and writes there those columns that its line asks for, and no
// others. An idle worker's columns are not read but for OPERATION.
#[derive(Drop)]
pub(crate) struct Record<'a> {
    pub memory: &'a mut [usize],
    pub worker: usize,
    // How many steps are done, the present one among them.
    pub steps: usize,
}

impl Record<'_> {
    pub(crate) fn field(&self, column: usize) -> usize {
        field(self.memory, column, self.worker)
    }

    pub(crate) fn set_field(&mut self, column: usize, to: usize) {
        set_field(self.memory, column, self.worker, to);
    }

    pub(crate) fn is_set(&self, column: usize) -> bool {
        is_set(self.memory, column, self.worker)
    }

    pub(crate) fn set_flag(&mut self, column: usize, flag: bool) {
        self.set_field(column, usize::from(flag));
    }

    pub(crate) fn outcome(&self) -> Outcome {
        Outcome::of(self.field(OUTCOME))
    }

    pub(crate) fn set_outcome(&mut self, outcome: Outcome) {
        self.set_field(OUTCOME, outcome.number());
    }
}

// No step is done, no node is held, and the first step is to fetch a head. A start adds the operation's arguments.
pub(crate) fn starting(memory: &mut [usize], worker: usize, operation: Operation) -> Record<'_> {
    let mut record = Record {
        memory,
        worker,
        steps: 0,
    };
    record.set_field(OPERATION, operation.number());
    record.set_field(STEPS, 0);
    record.set_field(FETCH, 1);
    record.set_outcome(Outcome::NotYet);
    record.set_flag(HOLDS, false);
    record
}

// A column of 0 and 1.
pub(crate) fn is_set(memory: &[usize], column: usize, worker: usize) -> bool {
    field(memory, column, worker) == 1
}

// None where the worker is idle.
pub(crate) fn operation_of(memory: &[usize], worker: usize) -> Option<Operation> {
    Operation::of(field(memory, OPERATION, worker))
}

pub(crate) fn rest(memory: &mut [usize], worker: usize) {
    set_field(memory, OPERATION, worker, 0);
}

// Refusals 2 and 3, which all calls with a worker share. Lent words and worker stay two parameters: only this tests both, and the others hand them on.
pub(crate) fn check_worker(memory: &[usize], lent: usize, worker: usize) -> Result<(), Refusal> {
    Refusal::Damaged.when(is_damaged(memory, lent))?;
    Refusal::NoSuchWorker.when(get(memory, WORKERS) <= worker)
}

// The operation that is to be stepped or abandoned, or refusal 2, 3 or 5.
pub(crate) fn running(memory: &[usize], lent: usize, worker: usize) -> Result<Operation, Refusal> {
    check_worker(memory, lent, worker)?;
    operation_of(memory, worker).ok_or(Refusal::Idle)
}
