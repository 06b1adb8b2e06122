// Line 34's walk to the version at a handle, which readSnapshot and total share.
ghost use Rattle.std.specs.Prelude.{◌≡◌, ◌+◌, ◌*◌, ◌<◌, length};
ghost use Rattle.definitions.specs.Cells.{node_words, cells_at};
ghost use Rattle.definitions.specs.Lines.{to_older};
ghost use Rattle.definitions.specs.Promises.{Met};
ghost use Rattle.endings.specs.Stepped.{ReadyAt, HasNode, HasOlder, node_tested};

use definitions::Answer;
use endings::go_on;
use endings::site::Site;
use tables::fields::{HEADER_WORDS, NODE, OLDER, PHASE, STAMP, STEPS, VALUE, WORKER_WORDS};
use tables::limits::NodeLimits;
use tables::nodes;

// Line 34's test of a node, in the node part: its stamp, and the one word that it reads after that.
pub fn tested_is_damaged(nodes: &[u32], n: usize, handle: u32, limits: NodeLimits) -> bool
    requires { node_words * n + 2 < length nodes.now }
    ensures { result ≡ node_tested nodes.now n handle limits.projects limits.used limits.counter }
{
    let stamp = nodes::word(nodes, n, STAMP);
    if handle < stamp {
        let older = nodes::word(nodes, n, OLDER);
        return (limits.counter < stamp) | ((older == 0) | (limits.used < older));
    }
    let value = nodes::word(nodes, n, VALUE);
    (limits.counter < stamp) | (limits.projects <= value)
}

// A stamp above the handle leads to the older node, in readSnapshot and in total.
pub fn go_to_older(words: &mut [u32], site: Site) -> Answer
    requires { ReadyAt site words.old × HasNode site.worker words.old × HasOlder site.items_at site.nodes_at site.worker words.old }
    ensures { Met site.items_at site.nodes_at words.old (to_older (cells_at site.items_at site.nodes_at words.old) site.worker) result words.new }
{
    let at = HEADER_WORDS + WORKER_WORDS * site.worker;
    let phase = words[at + PHASE];
    let steps = words[at + STEPS];
    let n = words[at + NODE] as usize;
    let older = nodes::word(&words[site.nodes_at..], n, OLDER);
    words[at + NODE] = older - 1;
    go_on(words, site.worker, phase, steps)
}
