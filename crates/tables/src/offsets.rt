// Where the items and the nodes start, as the words' own header says.
ghost use Rattle.std.specs.Prelude.{◌≡◌, ◌≤◌, length};
ghost use Rattle.definitions.specs.Cells.{items_offset, nodes_offset};

use crate::fields::{HEADER_WORDS, ITEM_WORDS, ITEMS_LIMIT, WORKER_WORDS, WORKERS};

pub fn items_offset(words: &[u32]) -> usize
    requires { 2 ≤ length words.now }
    ensures { result ≡ items_offset words.now }
{
    HEADER_WORDS + WORKER_WORDS * (words[WORKERS] as usize)
}

pub fn nodes_offset(words: &[u32]) -> usize
    requires { 2 ≤ length words.now }
    ensures { result ≡ nodes_offset words.now }
{
    items_offset(words) + ITEM_WORDS * (words[ITEMS_LIMIT] as usize)
}
