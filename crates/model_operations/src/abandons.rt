// Document 02's first request. What a change has published stays in its item's history, and whoever helps stamps it.
use crate::starts::is_resting;
use crate::vcas::give_back;
use crate::workers::{is_set, rest, running};
use model::memory::HOLDS;
use model::replies::Refusal;

// Whether a worker that is in an operation has taken a node at 45 and not published it or given it back.
pub fn holds_node(memory: &[usize], worker: usize) -> bool {
    !is_resting(memory, worker) && is_set(memory, HOLDS, worker)
}

// "it becomes idle at once, without an answer". "A node taken at 45 and not published goes back as line 50 would return it."
pub fn abandon(memory: &mut [usize], lent: usize, worker: usize) -> Result<(), Refusal> {
    running(memory, lent, worker)?;
    if holds_node(memory, worker) {
        give_back(memory);
    }
    rest(memory, worker);
    Ok(())
}
