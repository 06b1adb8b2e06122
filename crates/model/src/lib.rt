// A model of document 01, for the soak program to compare the catalogue with. It keeps what document 01 promises, and not
// how the paper's machine keeps it: for each item the history of its published versions, for each worker how many steps it
// has done since it fetched a head, and one count of the nodes that are published or held.
// Here are what it keeps, what it answers, and make and register; the crate model_operations has the starts, the steps and abandon.
#![tactic(auto)]

pub mod history;
pub mod memory;
pub mod replies;
pub mod setup;
