// Document 01's P, M, N, Q and C.
ghost use Rattle.std.specs.Prelude.{◌≡◌};
ghost use Rattle.definitions.specs.Cells.{needed};
ghost use Rattle.definitions.specs.Damage.{any_of, outside, sizes_outside};

use crate::fields::NODE_WORDS;

#[derive(Clone, Copy)]
pub struct Sizes {
    pub workers: u32,
    pub items: u32,
    pub nodes: u32,
    pub projects: u32,
    pub counter: u32,
}

fn is_outside(x: u32, low: u32, high: u32) -> bool
    ensures { result ≡ outside low high x }
{
    !(low..=high).contains(&x)
}

// Document 01's ranges of the five.
pub fn sizes_beyond(sizes: Sizes) -> bool
    ensures { result ≡ any_of (sizes_outside sizes.workers sizes.items sizes.nodes sizes.projects sizes.counter) }
{
    is_outside(sizes.workers, 1, 64)
        | is_outside(sizes.items, 1, 256)
        | is_outside(sizes.nodes, 1, 4096)
        | is_outside(sizes.projects, 1, 256)
        | is_outside(sizes.counter, 1, 4294967294)
}

// The words that a catalogue of these sizes needs; no 32-bit sizes make it overflow.
pub fn words_needed(sizes: Sizes) -> u64
    ensures { result ≡ needed sizes.workers sizes.items sizes.nodes }
{
    16 + 16 * u64::from(sizes.workers)
        + 4 * u64::from(sizes.items)
        + (NODE_WORDS as u64) * u64::from(sizes.nodes)
}
