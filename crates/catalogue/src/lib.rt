// The calls as the C service has them, on numbers and slices: include/goravesha.h is their header.
// No call asks anything of its caller: bad calls are refused, each with one fixed number. A call returns the code of its answer and writes
// the answer's four numbers: the value, the steps, and two zeros.
#![tactic(auto)]

ghost use Rattle.std.specs.Prelude.{[], ◌∷◌, ◌≡◌};
ghost use Rattle.definitions.specs.Calls.{outcome, Call};
ghost use Rattle.definitions.specs.Promises.{Told};

use abandon::abandon;
use calls::make::make;
use calls::register::register;
use calls::start::{
    start_read_snapshot, start_take_snapshot, start_total, start_vcas, start_vread,
};
use definitions::Answer;
use steps::step;

// What a call answered, in the numbers of the C interface.
fn tell(told: Answer, answer: &mut [u64; 4]) -> u32
    ensures { (result ≡ told.code) × (answer.new ≡ told.value ∷ told.steps ∷ 0 ∷ 0 ∷ []) }
{
    *answer = [told.value, u64::from(told.steps), 0, 0];
    told.code
}

#[unsafe(no_mangle)]
pub extern "C" fn goravesha_make(
    words: &mut [u32],
    workers: u32,
    items: u32,
    nodes: u32,
    projects: u32,
    counter: u32,
    answer: &mut [u64; 4],
) -> u32
    ensures { Told (outcome words.old (Call.make workers items nodes projects counter)) result answer.new words.new }
{
    tell(
        make(words, workers, items, nodes, projects, counter),
        answer,
    )
}

#[unsafe(no_mangle)]
pub extern "C" fn goravesha_register(
    words: &mut [u32],
    value: u32,
    size: u32,
    answer: &mut [u64; 4],
) -> u32
    ensures { Told (outcome words.old (Call.register value size)) result answer.new words.new }
{
    tell(register(words, value, size), answer)
}

#[unsafe(no_mangle)]
pub extern "C" fn goravesha_start_vread(
    words: &mut [u32],
    worker: u32,
    item: u32,
    answer: &mut [u64; 4],
) -> u32
    ensures { Told (outcome words.old (Call.v_read worker item)) result answer.new words.new }
{
    tell(start_vread(words, worker, item), answer)
}

#[unsafe(no_mangle)]
pub extern "C" fn goravesha_start_vcas(
    words: &mut [u32],
    worker: u32,
    item: u32,
    old: u32,
    new: u32,
    answer: &mut [u64; 4],
) -> u32
    ensures { Told (outcome words.old (Call.v_cas worker item old new)) result answer.new words.new }
{
    tell(start_vcas(words, worker, item, old, new), answer)
}

#[unsafe(no_mangle)]
pub extern "C" fn goravesha_start_take_snapshot(
    words: &mut [u32],
    worker: u32,
    answer: &mut [u64; 4],
) -> u32
    ensures { Told (outcome words.old (Call.take_snapshot worker)) result answer.new words.new }
{
    tell(start_take_snapshot(words, worker), answer)
}

#[unsafe(no_mangle)]
pub extern "C" fn goravesha_start_read_snapshot(
    words: &mut [u32],
    worker: u32,
    item: u32,
    handle: u32,
    answer: &mut [u64; 4],
) -> u32
    ensures { Told (outcome words.old (Call.read_snapshot worker item handle)) result answer.new words.new }
{
    tell(start_read_snapshot(words, worker, item, handle), answer)
}

#[unsafe(no_mangle)]
pub extern "C" fn goravesha_start_total(
    words: &mut [u32],
    worker: u32,
    project: u32,
    handle: u32,
    answer: &mut [u64; 4],
) -> u32
    ensures { Told (outcome words.old (Call.total worker project handle)) result answer.new words.new }
{
    tell(start_total(words, worker, project, handle), answer)
}

#[unsafe(no_mangle)]
pub extern "C" fn goravesha_step(words: &mut [u32], worker: u32, answer: &mut [u64; 4]) -> u32
    ensures { Told (outcome words.old (Call.step worker)) result answer.new words.new }
{
    tell(step(words, worker), answer)
}

#[unsafe(no_mangle)]
pub extern "C" fn goravesha_abandon(words: &mut [u32], worker: u32, answer: &mut [u64; 4]) -> u32
    ensures { Told (outcome words.old (Call.abandon worker)) result answer.new words.new }
{
    tell(abandon(words, worker), answer)
}
