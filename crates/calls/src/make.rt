// Make: every needed word is set, the unused ones to zero; words past them are never touched.
ghost use Rattle.std.specs.Prelude.{◌≡◌};
ghost use Rattle.definitions.specs.Calls.{outcome};
ghost use Rattle.definitions.specs.Calls.Call.{make};
ghost use Rattle.definitions.specs.Promises.{Done};

use definitions::Answer;
use endings::accept;
use endings::reason::{Reason, refuse};
use tables::fields::{COUNTER_LIMIT, ITEMS_LIMIT, NODES_LIMIT, PROJECTS, WORKERS};
use tables::sizes::{Sizes, sizes_beyond, words_needed};

pub fn make(
    words: &mut [u32],
    workers: u32,
    items: u32,
    nodes: u32,
    projects: u32,
    counter: u32,
) -> Answer
    ensures { Done (outcome words.old (make workers items nodes projects counter)) result words.new }
{
    let sizes = Sizes {
        workers,
        items,
        nodes,
        projects,
        counter,
    };
    if sizes_beyond(sizes) {
        return refuse(Reason::SizesOutside);
    }
    let needed = words_needed(sizes);
    if (words.len() as u64) < needed {
        return refuse(Reason::SizesOutside);
    }
    words[..needed as usize].fill(0);
    words[WORKERS] = workers;
    words[ITEMS_LIMIT] = items;
    words[NODES_LIMIT] = nodes;
    words[PROJECTS] = projects;
    words[COUNTER_LIMIT] = counter;
    accept(0)
}
