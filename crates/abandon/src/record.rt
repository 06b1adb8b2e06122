// What the record of a busy worker says at its phase: whether it is damaged, and whether it holds a node.
ghost use Rattle.std.specs.Prelude.{◌≡◌, ℕ, ◌+◌, ◌*◌, ◌<◌, ◌≤◌, length};
ghost use Rattle.definitions.specs.Cells.{cells_at};
ghost use Rattle.definitions.specs.Phases.{row_of};
ghost use Rattle.tables.specs.Ranges.{HasRecord};
ghost use Rattle.definitions.specs.Damage.{keeps_new_node, running_damaged};

use tables::damage::running_is_damaged;
use tables::phases::row_at;

// Before line 46, which publishes the new node, and before line 50, which gives it back. Not matches!: an abandon of a total then took 1.13 of the time of
// its twin in C (the bar is 1.10).
pub fn holds_node(phase: u32) -> bool
    requires { phase < 36 }
    ensures { result ≡ keeps_new_node (row_of phase) }
{
    let line = row_at(phase as usize).line;
    (line == 46) | (line == 50)
}

pub fn record_is_damaged(words: &[u32], w: usize, phase: u32) -> bool
    requires { (HasRecord w words.now) × (phase < 36) × (phase ≡ 0 → ⊥) }
    ensures { (a b : ℕ) → result ≡ running_damaged (row_of phase) (cells_at a b words.now) w }
{
    running_is_damaged(words, w, row_at(phase as usize))
}
