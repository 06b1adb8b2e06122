// What a line reads of the node that its worker keeps, where it is not damaged.
ghost use Rattle.std.specs.Prelude.{◌≡◌, ℕ};
ghost use Rattle.definitions.specs.Cells.{cells_at, node, value};
ghost use Rattle.definitions.specs.Lines.{its_value};
ghost use Rattle.endings.specs.Ended.{Reads};
ghost use Rattle.endings.specs.Stepped.{ReadyAt, HasNode};

use crate::reason::Reason;
use crate::site::Site;
use tables::fields::{HEADER_WORDS, NODE, PROJECTS, VALUE, WORKER_WORDS};
use tables::nodes;

// The node's value, a project's number.
pub fn read_value(words: &[u32], site: Site) -> Result<u32, Reason>
    requires { ReadyAt site words.now × HasNode site.worker words.now }
    ensures { let m = cells_at site.items_at site.nodes_at words.now in
        Reads (its_value m site.worker) (m (value (m (node site.worker)))) result }
{
    let n = words[HEADER_WORDS + WORKER_WORDS * site.worker + NODE] as usize;
    let value = nodes::word(&words[site.nodes_at..], n, VALUE);
    if words[PROJECTS] <= value {
        return Err(Reason::Damaged);
    }
    Ok(value)
}
