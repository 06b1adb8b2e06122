// Where a step finds its words.

// A worker's number, and where the items and the nodes start among the words of its catalogue. What is true of the words is asked of them by name (ReadyAt,
// HasNode ..) and not kept here: they are C's slice, and change under it. The places in a record are reckoned where they are used, so that they compute.
#[derive(Clone, Copy)]
pub struct Site {
    pub items_at: usize,
    pub nodes_at: usize,
    pub worker: usize,
}
