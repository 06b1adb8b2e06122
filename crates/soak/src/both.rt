// One call, on the code and on the model: logged, made twice, counted, compared.
ghost use Rattle.std.specs.Prelude.{◌≡◌, ◌&&◌, ◌==◌, [], ◌∷◌, get_or};
ghost use Rattle.model.specs.Replies.{numbers_of};

use calls::start;
use definitions::Answer;
use model::memory::MEMORY;
use model::replies::Reply;
use model::setup;
use model::setup::Sizes;
use model_operations::{abandons, starts, stepping};
use std::{fmt, io};
use tables::fields::{HEADER_WORDS, PHASE, WORKER_WORDS};
use tally::frames;
use tally::frames::{Call, Lent, Operation, WHOLE};
use tally::notes::{
    ABANDONED, ABANDONS, CATALOGUES, COMPARED, DIFFER, FIRST_AT, LIFE, LONGEST, NOTES, PHASES,
    REFUSALS, count, get, lower, move_place, put, raise,
};

// Six numbers for each call.
pub const LOG: usize = 6 * frames::MOST as usize;

// What a run works on: the code's words, the model's memory, the log of the calls, the notes.
#[derive(Drop)]
pub struct Bench {
    pub words: [u32; WHOLE],
    pub memory: [usize; MEMORY],
    pub log: [u32; LOG],
    pub tally: [u64; NOTES],
}

// What code and model are compared by. An answer is shown as the schedule program shows it.
#[derive(Clone, Copy, PartialEq, Eq)]
struct Said {
    code: u64,
    value: u64,
    steps: u64,
}

impl From<&Answer> for Said {
    ghost from_gives = { λ answer said. (said.code ≡ answer.now.code) × (said.value ≡ answer.now.value) × (said.steps ≡ answer.now.steps) };

    fn from(answer: &Answer) -> Said {
        Said {
            code: u64::from(answer.code),
            value: answer.value,
            steps: u64::from(answer.steps),
        }
    }
}

impl From<Reply> for Said {
    ghost from_gives = { λ reply said. said.code ∷ said.value ∷ said.steps ∷ [] ≡ numbers_of reply };

    fn from(reply: Reply) -> Said {
        let [code, value, steps] = reply.numbers();
        Said {
            code: code as u64,
            value: value as u64,
            steps: steps as u64,
        }
    }
}

impl fmt::Display for Said {
    fn fmt<W: fmt::Write>(&self, f: &mut fmt::Formatter<W>) -> fmt::Result {
        let Said { code, value, steps } = *self;
        write!(f, "{code:02x}{value:016x}{steps:04x}")
    }
}

// Code, value and steps. What the code answered and what the model replied are of two types, so that neither is held against itself.
fn agree(answer: &Answer, reply: Reply) -> bool
    ensures { let numbers = numbers_of reply in
        result ≡ (answer.now.code == get_or numbers 0 0 && answer.now.value == get_or numbers 1 0) && (answer.now.steps == get_or numbers 2 0) }
{
    Said::from(answer) == Said::from(reply)
}

fn code_starts(words: &mut [u32], worker: u32, operation: Operation) -> Answer {
    match operation {
        Operation::VRead { item } => start::start_vread(words, worker, item),
        Operation::VCas { item, old, new } => start::start_vcas(words, worker, item, old, new),
        Operation::TakeSnapshot => start::start_take_snapshot(words, worker),
        Operation::ReadSnapshot { item, handle } => {
            start::start_read_snapshot(words, worker, item, handle)
        }
        Operation::Total { project, handle } => {
            start::start_total(words, worker, project, handle)
        }
    }
}

fn code_says(words: &mut [u32], call: Call) -> Answer {
    match call {
        Call::Make {
            workers,
            items,
            nodes,
            projects,
            counter,
        } => calls::make::make(words, workers, items, nodes, projects, counter),
        Call::Register { value, size } => calls::register::register(words, value, size),
        Call::Start { worker, operation } => code_starts(words, worker, operation),
        Call::Step { worker } => steps::step(words, worker),
        Call::Abandon { worker } => abandon::abandon(words, worker),
    }
}

// The code's answer, where as many words are lent as the call says.
fn code_answers(words: &mut [u32], lent: Lent) -> Answer {
    let some = lent.words.min(words.len());
    code_says(&mut words[..some], lent.call)
}

fn model_starts(memory: &mut [usize], lent: usize, worker: usize, operation: Operation) -> Reply {
    let started = match operation {
        Operation::VRead { item } => starts::v_read(memory, lent, worker, item as usize),
        Operation::VCas { item, old, new } => starts::v_cas(
            memory,
            lent,
            worker,
            item as usize,
            old as usize,
            new as usize,
        ),
        Operation::TakeSnapshot => starts::take_snapshot(memory, lent, worker),
        Operation::ReadSnapshot { item, handle } => {
            starts::read_snapshot(memory, lent, worker, item as usize, handle as usize)
        }
        Operation::Total { project, handle } => {
            starts::total(memory, lent, worker, project as usize, handle as usize)
        }
    };
    started.into()
}

fn model_answers(memory: &mut [usize], lent: Lent) -> Reply {
    let words = lent.words;
    match lent.call {
        Call::Make {
            workers,
            items,
            nodes,
            projects,
            counter,
        } => {
            let sizes = Sizes {
                workers: workers as usize,
                items: items as usize,
                nodes: nodes as usize,
                projects: projects as usize,
                largest_counter: counter as usize,
            };
            setup::make(memory, words, sizes).into()
        }
        Call::Register { value, size } => {
            setup::register(memory, words, value as usize, size as usize).into()
        }
        Call::Start { worker, operation } => {
            model_starts(memory, words, worker as usize, operation)
        }
        Call::Step { worker } => stepping::step(memory, words, worker as usize),
        Call::Abandon { worker } => abandons::abandon(memory, words, worker as usize).into(),
    }
}

// The phase of the worker that a start, a step or an abandon names; None where that is not there, or the call names none.
fn phase_of(words: &[u32], call: Call) -> Option<u32> {
    match call {
        Call::Make { .. } | Call::Register { .. } => None,
        Call::Start { worker, .. } | Call::Step { worker } | Call::Abandon { worker } => {
            let at = HEADER_WORDS + WORKER_WORDS * worker as usize + PHASE;
            words.get(at).copied()
        }
    }
}

// A start that was accepted, or a step that advanced an operation, took the worker from a phase to a phase. An abandon is counted apart. An answer's
// code is C's number (definitions, Answer), here and below.
fn note_move(
    tally: &mut [u64],
    call: Call,
    answer: &Answer,
    before: Option<u32>,
    after: Option<u32>,
) {
    if 2 < answer.code && answer.steps == 0 {
        return;
    }
    let (Some(before), Some(after)) = (before, after) else {
        return;
    };
    if matches!(call, Call::Abandon { .. }) {
        count(tally, ABANDONS);
        count(tally, ABANDONED.place(before));
        return;
    }
    count(tally, move_place(before, after));
    count(tally, PHASES.place(after));
    if answer.code == 0 {
        raise(tally, LONGEST.place(before), u64::from(answer.steps));
    }
}

fn note_answer(tally: &mut [u64], call: Call, code: u32) {
    count(tally, COMPARED);
    if 16 < code {
        count(tally, REFUSALS.place(code - 16));
    } else if matches!(call, Call::Make { .. }) {
        count(tally, CATALOGUES);
    }
}

impl Bench {
    // The first difference is shown with the calls that lead to it; after any, the catalogue is given up.
    fn note_difference(&mut self, rt: &impl Print, code: Said, model: Said) -> io::Result<()> {
        count(&mut self.tally, DIFFER);
        put(&mut self.tally, LIFE, 0);
        if get(&self.tally, DIFFER) == 1 {
            let compared = get(&self.tally, COMPARED);
            put(&mut self.tally, FIRST_AT, compared);
            frames::show(rt, &self.log, &self.tally)?;
            println!(rt; "the code answers  {code}")?;
            println!(rt; "the model answers {model}")?;
        }
        Ok(())
    }

    pub fn both(&mut self, rt: &impl Print, lent: Lent) -> io::Result<()> {
        let call = lent.call;
        let before = phase_of(&self.words, call);
        let answer = code_answers(&mut self.words, lent);
        let after = phase_of(&self.words, call);
        let reply = model_answers(&mut self.memory, lent);
        frames::log_call(&mut self.log, &mut self.tally, lent.numbers());
        note_move(&mut self.tally, call, &answer, before, after);
        lower(&mut self.tally, LIFE);
        note_answer(&mut self.tally, call, answer.code);
        if agree(&answer, reply) {
            return Ok(());
        }
        self.note_difference(rt, Said::from(&answer), Said::from(reply))
    }
}
