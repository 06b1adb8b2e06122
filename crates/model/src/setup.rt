// Make and register.
ghost use Rattle.std.specs.Prelude.{◌≡◌, OnErr};

use crate::history;
use crate::memory::{
    ITEMS, LARGEST_COUNTER, MOST_ITEMS, NEEDED, NODES, PROJECTS, STEPS, TAKEN, WORKERS, get, put,
};
use crate::replies::Refusal;

// Document 01's P, M, N, Q and C.
#[derive(Clone, Copy, PartialEq, Eq, Debug)]
pub struct Sizes {
    pub workers: usize,
    pub items: usize,
    pub nodes: usize,
    pub projects: usize,
    pub largest_counter: usize,
}

// "It needs 16 + 16P + 4M + 3N words"; None with "a size outside its range".
fn words_needed(sizes: Sizes) -> Option<usize> {
    let Sizes {
        workers,
        items,
        nodes,
        projects,
        largest_counter,
    } = sizes;
    let in_range = (1..=64).contains(&workers)
        && (1..=256).contains(&items)
        && (1..=4096).contains(&nodes)
        && (1..=256).contains(&projects)
        && (1..=4294967294).contains(&largest_counter);
    if !in_range {
        return None;
    }
    Some(16 + 16 * workers + 4 * items + 3 * nodes)
}

// A refused make leaves the catalogue that was there.
pub fn make(memory: &mut [usize], lent: usize, sizes: Sizes) -> Result<(), Refusal> {
    let needed = words_needed(sizes).ok_or(Refusal::SizesOrWords)?;
    Refusal::SizesOrWords.when(lent < needed)?;
    clear(memory);
    put(memory, WORKERS, sizes.workers);
    put(memory, MOST_ITEMS, sizes.items);
    put(memory, NODES, sizes.nodes);
    put(memory, PROJECTS, sizes.projects);
    put(memory, LARGEST_COUNTER, sizes.largest_counter);
    put(memory, NEEDED, needed);
    Ok(())
}

// A made catalogue: every worker idle, the counter 0, no item, no node taken. The single numbers stand first, and then OPERATION,
// the first column of the workers'; an idle worker's other columns are not read.
fn clear(memory: &mut [usize]) {
    let end = memory.len().min(STEPS);
    memory[..end].fill(0);
}

// Refusal 2, as far as a model without words has it: before any make, or "fewer lent words than the header needs".
// Memory and lent stay two parameters, as memory and item do (history.rt).
pub fn is_damaged(memory: &[usize], lent: usize) -> bool {
    let needed = get(memory, NEEDED);
    needed == 0 || lent < needed
}

// "Register takes a node and stamps it with the present counter"; "Items are numbered from 0".
pub fn register(
    memory: &mut [usize],
    lent: usize,
    value: usize,
    size: usize,
) -> Result<usize, Refusal> {
    Refusal::Damaged.when(is_damaged(memory, lent))?;
    Refusal::NoSuchProject.when(get(memory, PROJECTS) <= value)?;
    let item = get(memory, ITEMS);
    Refusal::AllItemsExist.when(get(memory, MOST_ITEMS) <= item)?;
    take_node(memory)?;
    put(memory, ITEMS, item.wrapping_add(1));
    history::begin(memory, item, value, size);
    Ok(item)
}

// A register's node, and line 45's.
pub fn take_node(memory: &mut [usize]) -> Result<(), Refusal>
    ensures { OnErr result (memory.new ≡ memory.old) }
{
    let taken = get(memory, TAKEN);
    Refusal::AllNodesTaken.when(get(memory, NODES) <= taken)?;
    put(memory, TAKEN, taken.wrapping_add(1));
    Ok(())
}
