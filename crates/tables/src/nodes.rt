// Functions on the node part of the lent words: the part that starts where the nodes start, handed on and never copied. A node is three of C's words.
ghost use Rattle.std.specs.Prelude.{◌≡◌, [], ◌∷◌, ◌+◌, ◌*◌, ◌<◌, ◌≤◌, length, get_or};
ghost use Rattle.definitions.specs.Cells.{node_words};
ghost use Rattle.tables.specs.Part.{stored, ◌gets◌};
ghost use Rattle.tables.specs.Ranges.{waiting};

use crate::fields::{GIVEN_BACK, NODE_WORDS, OLDER, STAMP, VALUE};

// One word of node n.
pub fn word(nodes: &[u32], n: usize, field: usize) -> u32
    requires { node_words * n + field < length nodes.now }
    ensures { result ≡ get_or nodes.now (node_words * n + field) 0 }
{
    nodes[NODE_WORDS * n + field]
}

// One word of node n is written.
pub fn write(nodes: &mut [u32], n: usize, field: usize, what: u32)
    requires { node_words * n + field < length nodes.old }
    ensures { nodes.new ≡ stored nodes.old ((node_words * n + field) gets what ∷ []) }
{
    nodes[NODE_WORDS * n + field] = what;
}

// All of node n is written, as line 45 and register make it.
pub fn make(nodes: &mut [u32], n: usize, value: u32, older: u32, stamp: u32)
    requires { node_words * n + 2 < length nodes.old }
    ensures { nodes.new ≡ stored nodes.old
        ((node_words * n + 0) gets value ∷ (node_words * n + 1) gets older ∷ (node_words * n + 2) gets stamp ∷ []) }
{
    nodes[NODE_WORDS * n + VALUE] = value;
    nodes[NODE_WORDS * n + OLDER] = older;
    nodes[NODE_WORDS * n + STAMP] = stamp;
}

// The first node given back, where one waits: the header has its number plus one.
pub fn first_given_back(words: &[u32]) -> Option<u32>
    requires { 9 ≤ length words.now }
    ensures { result ≡ waiting (get_or words.now 8 0) }
{
    words[GIVEN_BACK].checked_sub(1)
}
