// What the calls answer.
ghost use Rattle.std.specs.Prelude.{◌≡◌, if◌then◌else◌};
ghost use Rattle.model.specs.declared.replies.Reply.TheVariants.{Refused};
ghost use Rattle.model.specs.Replies.{number_of, numbers_of, accepted_of, reply_of};

// Document 01's numbers of refusal, in its table's order. 13 is the schedule program's.
#[derive(Clone, Copy, PartialEq, Eq, Debug)]
pub enum Refusal {
    // "make: a size outside its range, or too few lent words"
    SizesOrWords = 1,
    Damaged,
    // "worker number is P or more"
    NoSuchWorker,
    // "start: the worker is in an operation"
    InOperation,
    // "step: the worker is idle"
    Idle,
    // "item number not registered"
    NotRegistered,
    // "a project number is Q or more"
    NoSuchProject,
    // "handle is at or above the present counter"
    HandleNotGiven,
    // "readSnapshot: handle below the birth stamp"
    HandleBelowBirth,
    // "register: M items exist"
    AllItemsExist,
    // "register, or vCAS at 45: no node waits and all N were used, so each is published or held"
    AllNodesTaken,
    // "takeSnapshot at 5: the counter read is C"
    LargestCounter,
}

impl Refusal {
    pub fn number(self) -> usize
        ensures { result ≡ number_of self }
    {
        self as usize
    }

    // As the table has it: "Given exactly when".
    pub fn when(self, given: bool) -> Result<(), Refusal>
        ensures { result ≡ (if given then Err self else Ok tt) }
    {
        if given { Err(self) } else { Ok(()) }
    }
}

// A step finishes, runs on or is refused; every other call is done or refused, and answers a Result, which `from` reads.
#[derive(Clone, Copy, PartialEq, Eq, Debug)]
pub enum Reply {
    Finished { value: usize, steps: usize },
    Running { steps: usize },
    // Made, registered, started or abandoned. The value is the item's number after register, and 0 else.
    Done { value: usize },
    Refused { refusal: Refusal, steps: usize },
}

impl Reply {
    // Code, value and steps: 0 finished, 1 running, 2 done, 16 + n refusal n.
    pub fn numbers(&self) -> [usize; 3]
        ensures { result ≡ numbers_of self.now }
    {
        match *self {
            Reply::Finished { value, steps } => [0, value, steps],
            Reply::Running { steps } => [1, 0, steps],
            Reply::Done { value } => [2, value, 0],
            Reply::Refused { refusal, steps } => [16 + refusal.number(), 0, steps],
        }
    }
}

// "A refusal answers value 0, steps 0".
impl From<Refusal> for Reply {
    ghost from_gives = { λ refusal reply. reply ≡ Refused refusal 0 };

    fn from(refusal: Refusal) -> Reply {
        Reply::Refused { refusal, steps: 0 }
    }
}

impl From<Result<usize, Refusal>> for Reply {
    ghost from_gives = { λ answer reply. reply ≡ reply_of answer };

    fn from(answer: Result<usize, Refusal>) -> Reply {
        match answer {
            Ok(value) => Reply::Done { value },
            Err(refusal) => Reply::from(refusal),
        }
    }
}

impl From<Result<(), Refusal>> for Reply {
    ghost from_gives = { λ answer reply. reply ≡ accepted_of answer };

    fn from(answer: Result<(), Refusal>) -> Reply {
        Reply::from(answer.map(|_| 0))
    }
}
