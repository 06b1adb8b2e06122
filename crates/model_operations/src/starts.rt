// The starts of the five operations. "Starting touches the worker's record and is not a step."
use crate::workers::{Operation, check_worker, operation_of, starting};
use model::history::is_born_after;
use model::memory::{
    COUNTER, HANDLE, ITEM, ITEMS, NEW, NOTED, OLD, PROJECT, PROJECTS, WORKERS, get,
};
use model::replies::Refusal;

// Whether the worker is idle. A worker that is not there is in no operation. Memory and worker stay two, as memory and item do (model, history.rt).
pub fn is_resting(memory: &[usize], worker: usize) -> bool {
    get(memory, WORKERS) <= worker || operation_of(memory, worker).is_none()
}

// The refusals that every start shares, in the table's order: 2, 3, 4.
fn check_idle(memory: &[usize], lent: usize, worker: usize) -> Result<(), Refusal> {
    check_worker(memory, lent, worker)?;
    Refusal::InOperation.when(operation_of(memory, worker).is_some())
}

pub fn v_read(
    memory: &mut [usize],
    lent: usize,
    worker: usize,
    item: usize,
) -> Result<(), Refusal> {
    check_idle(memory, lent, worker)?;
    Refusal::NotRegistered.when(get(memory, ITEMS) <= item)?;
    let mut record = starting(memory, worker, Operation::VRead);
    record.set_field(ITEM, item);
    Ok(())
}

// Refusal 7 is "a project number is Q or more": both of a vCAS's values are project numbers.
pub fn v_cas(
    memory: &mut [usize],
    lent: usize,
    worker: usize,
    item: usize,
    old_value: usize,
    new_value: usize,
) -> Result<(), Refusal> {
    check_idle(memory, lent, worker)?;
    Refusal::NotRegistered.when(get(memory, ITEMS) <= item)?;
    let projects = get(memory, PROJECTS);
    Refusal::NoSuchProject.when(projects <= old_value || projects <= new_value)?;
    let mut record = starting(memory, worker, Operation::VCas);
    record.set_field(ITEM, item);
    record.set_field(OLD, old_value);
    record.set_field(NEW, new_value);
    Ok(())
}

// The counter is tested against C at line 5 and not here.
pub fn take_snapshot(memory: &mut [usize], lent: usize, worker: usize) -> Result<(), Refusal> {
    check_idle(memory, lent, worker)?;
    starting(memory, worker, Operation::TakeSnapshot);
    Ok(())
}

pub fn read_snapshot(
    memory: &mut [usize],
    lent: usize,
    worker: usize,
    item: usize,
    handle: usize,
) -> Result<(), Refusal> {
    check_idle(memory, lent, worker)?;
    Refusal::NotRegistered.when(get(memory, ITEMS) <= item)?;
    Refusal::HandleNotGiven.when(get(memory, COUNTER) <= handle)?;
    Refusal::HandleBelowBirth.when(is_born_after(memory, item, handle))?;
    let mut record = starting(memory, worker, Operation::ReadSnapshot);
    record.set_field(ITEM, item);
    record.set_field(HANDLE, handle);
    Ok(())
}

// "the number of items is noted at the start. Items go in ascending order".
pub fn total(
    memory: &mut [usize],
    lent: usize,
    worker: usize,
    project: usize,
    handle: usize,
) -> Result<(), Refusal> {
    check_idle(memory, lent, worker)?;
    Refusal::NoSuchProject.when(get(memory, PROJECTS) <= project)?;
    Refusal::HandleNotGiven.when(get(memory, COUNTER) <= handle)?;
    let noted = get(memory, ITEMS);
    let mut record = starting(memory, worker, Operation::Total);
    record.set_field(ITEM, 0);
    record.set_field(NOTED, noted);
    record.set_field(PROJECT, project);
    record.set_field(HANDLE, handle);
    Ok(())
}
