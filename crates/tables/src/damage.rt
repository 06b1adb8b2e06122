// The damage tests: each answers the definition of its name in definitions/specs/Damage.antt. They take the words and a worker's number: the words are C's slice,
// which carries no invariant, and a start has no Site.
ghost use Rattle.std.specs.Prelude.{◌≡◌, ◌||◌, ◌&&◌, eqb, false, ℕ, ◌+◌, ◌*◌, ◌/◌, ◌%◌, ◌<◌, ◌≤◌, length, get_or};
ghost use Rattle.definitions.specs.Cells.{node_words, cells_at, needed, node, new_node, seen};
ghost use Rattle.definitions.specs.Phases.{row};
ghost use Rattle.definitions.specs.Damage.{any_of, header_damaged_at, header_damaged, total_tests, arguments_damaged, keeps_node, keeps_new_node, bad_node, bad_time, kept_damaged, running_damaged, worker_damaged, too_many_steps, item_damaged, first_damaged};
ghost use Rattle.tables.specs.Ranges.{HasRecord, node_outside, kept_at};

use crate::fields::{
    BIRTH, COUNTER, COUNTER_LIMIT, GIVEN_BACK, HANDLE, HEAD, HEADER_WORDS, ITEM, ITEM_WORDS, ITEMS,
    ITEMS_LIMIT, NEW, NEW_NODE, NODE, NODE_WORDS, NODES_LIMIT, NOTED, OLD, OLDER, PHASE, PROJECT,
    PROJECTS, SEEN, STAMP, STEPS, SUM_HIGH, SUM_LOW, TBD, USED, VALUE, WORKER_WORDS, WORKERS,
};
use crate::limits::{NodeLimits, limits};
use crate::nodes;
use crate::phases::{CLOSING_PHASE, READ_SNAPSHOT, TAKE_SNAPSHOT, V_CAS, V_READ, row_at};
use crate::sizes::{Sizes, sizes_beyond, words_needed};
use definitions::PhaseRow;

fn header_beyond(count: usize, sizes: Sizes, counter: u32, items: u32, used: u32, back: u32) -> bool
    ensures { result ≡ header_damaged_at count sizes.workers sizes.items sizes.nodes sizes.projects sizes.counter counter items used back }
{
    sizes_beyond(sizes)
        | (sizes.counter < counter)
        | (sizes.items < items)
        | (sizes.nodes < used)
        | (used < back)
        | ((count as u64) < words_needed(sizes))
}

// The header, and fewer lent words than it needs.
pub fn header_is_damaged(words: &[u32]) -> bool
    ensures { result ≡ header_damaged words.now }
{
    if words.len() < HEADER_WORDS {
        return true;
    }
    let sizes = Sizes {
        workers: words[WORKERS],
        items: words[ITEMS_LIMIT],
        nodes: words[NODES_LIMIT],
        projects: words[PROJECTS],
        counter: words[COUNTER_LIMIT],
    };
    header_beyond(
        words.len(),
        sizes,
        words[COUNTER],
        words[ITEMS],
        words[USED],
        words[GIVEN_BACK],
    )
}

// A total's running sum, of its two words.
pub fn sum_of(high: u32, low: u32) -> u64
    ensures { result ≡ high * 4294967296 + low }
{
    u64::from(high) * 4294967296 + u64::from(low)
}

// Its two words, the high one first.
pub fn words_of_sum(sum: u64) -> (u32, u32)
    ensures { (result.0 ≡ sum / 4294967296) × (result.1 ≡ sum % 4294967296) }
{
    ((sum / 4294967296) as u32, (sum % 4294967296) as u32)
}

// A total's arguments, in the order of definitions/specs/Damage.antt.
pub fn total_is_damaged(words: &[u32], w: usize, row: PhaseRow) -> bool
    requires { HasRecord w words.now }
    ensures { (a b : ℕ) → result ≡ any_of (total_tests row (cells_at a b words.now) w) }
{
    let at = HEADER_WORDS + WORKER_WORDS * w;
    if words[PROJECTS] <= words[at + PROJECT] {
        return true;
    }
    if words[COUNTER] <= words[at + HANDLE] {
        return true;
    }
    if words[ITEMS] < words[at + NOTED] {
        return true;
    }
    if words[at + NOTED] < words[at + ITEM] {
        return true;
    }
    if ((row.operation != 3) & (row.line != 0)) & (words[at + NOTED] <= words[at + ITEM]) {
        return true;
    }
    1099511627776 < sum_of(words[at + SUM_HIGH], words[at + SUM_LOW])
}

// The arguments of the operation that a record runs. Two operations share a test: of a plain list of numbers a compiler makes an indirect jump.
// Always in its caller's own code, since a call would hand the row over in memory.
#[inline(always)]
fn arguments_are_damaged(words: &[u32], w: usize, row: PhaseRow) -> bool
    requires { HasRecord w words.now }
    ensures { (a b : ℕ) → result ≡ arguments_damaged row (cells_at a b words.now) w }
{
    let at = HEADER_WORDS + WORKER_WORDS * w;
    if row.operation == READ_SNAPSHOT {
        return (words[ITEMS] <= words[at + ITEM]) | (words[COUNTER] <= words[at + HANDLE]);
    }
    if (row.operation == V_READ) | (row.operation == V_CAS) {
        if words[ITEMS] <= words[at + ITEM] {
            return true;
        }
        if row.operation == V_CAS {
            return (words[PROJECTS] <= words[at + OLD]) | (words[PROJECTS] <= words[at + NEW]);
        }
        return false;
    }
    if row.operation == TAKE_SNAPSHOT {
        return false;
    }
    total_is_damaged(words, w, row)
}

// The lines whose record keeps the node that was fetched.
fn line_keeps_node(line: u8) -> bool
    ensures { result ≡ keeps_node (row 0 line false) }
{
    matches!(line, 20 | 21 | 22 | 34 | 39 | 43 | 45 | 46)
}

// What the record keeps for a line: the node, the new node, the number read at 21. Each word is asked before the line, since it is seldom out of range.
fn kept_node_is_damaged(words: &[u32], w: usize, line: u8) -> bool
    requires { HasRecord w words.now }
    ensures { (a b : ℕ) → let m = cells_at a b words.now in result ≡ (keeps_node (row 0 line false) && bad_node m (m (node w))) }
{
    words[USED] <= words[HEADER_WORDS + WORKER_WORDS * w + NODE] && line_keeps_node(line)
}

fn kept_new_node_is_damaged(words: &[u32], w: usize, line: u8) -> bool
    requires { HasRecord w words.now }
    ensures { (a b : ℕ) → let m = cells_at a b words.now in result ≡ (keeps_new_node (row 0 line false) && bad_node m (m (new_node w))) }
{
    words[USED] <= words[HEADER_WORDS + WORKER_WORDS * w + NEW_NODE]
        && ((line == 46) | (line == 50))
}

fn kept_time_is_damaged(words: &[u32], w: usize, line: u8) -> bool
    requires { HasRecord w words.now }
    ensures { (a b : ℕ) → let m = cells_at a b words.now in result ≡ (eqb line 22 && bad_time m (m (seen w))) }
{
    words[COUNTER] < words[HEADER_WORDS + WORKER_WORDS * w + SEEN] && line == 22
}

fn kept_is_damaged(words: &[u32], w: usize, line: u8) -> bool
    requires { HasRecord w words.now }
    ensures { (a b : ℕ) → result ≡ kept_damaged (row 0 line false) (cells_at a b words.now) w }
{
    kept_node_is_damaged(words, w, line)
        | kept_new_node_is_damaged(words, w, line)
        | kept_time_is_damaged(words, w, line)
}

// The same, and at line 6 the number read at 5: for step, which asks it where the line is known.
pub fn kept_at_line_is_damaged(words: &[u32], w: usize, line: u8) -> bool
    requires { HasRecord w words.now }
    ensures { (a b : ℕ) → result ≡ kept_at line (cells_at a b words.now) w }
{
    let seen = words[HEADER_WORDS + WORKER_WORDS * w + SEEN];
    kept_is_damaged(words, w, line) | ((line == 6) & (words[COUNTER_LIMIT] <= seen))
}

// A running record, at the table's entry for its phase. In its caller's own code for the same reason. What it keeps is asked with branches, and not by
// kept_is_damaged, which is step's. Lines 0, 5 and 6 keep nothing and go first: in a catalogue of no item they alone can be next, and no node word is in range.
#[inline(always)]
pub fn running_is_damaged(words: &[u32], w: usize, row: PhaseRow) -> bool
    requires { HasRecord w words.now }
    ensures { (a b : ℕ) → result ≡ running_damaged row (cells_at a b words.now) w }
{
    if arguments_are_damaged(words, w, row) {
        return true;
    }
    if row.line < 20 {
        return false;
    }
    if kept_node_is_damaged(words, w, row.line) {
        return true;
    }
    if kept_new_node_is_damaged(words, w, row.line) {
        return true;
    }
    kept_time_is_damaged(words, w, row.line)
}

// The step count and the arguments, as step asks them: with branches, and called from nowhere else, so that they stand in step's own code.
pub fn steps_or_arguments_are_damaged(words: &[u32], w: usize, row: PhaseRow) -> bool
    requires { HasRecord w words.now }
    ensures { (a b : ℕ) → result ≡ too_many_steps (cells_at a b words.now) w || arguments_damaged row (cells_at a b words.now) w }
{
    let at = HEADER_WORDS + WORKER_WORDS * w;
    if 5120 < words[at + STEPS] {
        return true;
    }
    arguments_are_damaged(words, w, row)
}

// A worker's record.
pub fn worker_is_damaged(words: &[u32], w: usize) -> bool
    requires { HasRecord w words.now }
    ensures { (a b : ℕ) → result ≡ worker_damaged (cells_at a b words.now) w }
{
    let at = HEADER_WORDS + WORKER_WORDS * w;
    let phase = words[at + PHASE];
    if CLOSING_PHASE < phase {
        return true;
    }
    if phase == 0 {
        return false;
    }
    let row = row_at(phase as usize);
    running_is_damaged(words, w, row)
}

// An item's record, by its number: a start has no Site. A birth stamp of TBD is no damage; with branches, since a step asks this and its birth stamp is a counter value.
pub fn item_is_damaged(words: &[u32], items_at: usize, i: usize) -> bool
    requires { (9 ≤ length words.now) × (items_at + 4 * i + 4 ≤ length words.now) }
    ensures { (b : ℕ) → result ≡ item_damaged (cells_at items_at b words.now) i }
{
    let at = items_at + ITEM_WORDS * i;
    if words[USED] <= words[at + HEAD] {
        return true;
    }
    let birth = words[at + BIRTH];
    if birth <= words[COUNTER] {
        return false;
    }
    birth != TBD
}

// All three words of node n, in the node part.
pub fn node_is_damaged(nodes: &[u32], n: usize, limits: NodeLimits) -> bool
    requires { node_words * n + 2 < length nodes.now }
    ensures { result ≡ node_outside nodes.now n limits.projects limits.used limits.counter }
{
    let stamp = nodes[NODE_WORDS * n + STAMP];
    (limits.projects <= nodes[NODE_WORDS * n + VALUE])
        | (limits.used < nodes[NODE_WORDS * n + OLDER])
        | ((limits.counter < stamp) & (stamp != TBD))
}

// The first node given back, where one waits: register, line 50 and an abandon that gives a node back ask this, and line 45 of the node that it takes.
pub fn first_is_damaged(words: &[u32], nodes_at: usize) -> bool
    requires { (16 ≤ nodes_at) × (nodes_at + node_words * get_or words.now 2 0 ≤ length words.now) × (get_or words.now 7 0 ≤ get_or words.now 2 0) × (get_or words.now 8 0 ≤ get_or words.now 7 0) }
    ensures { (a : ℕ) → result ≡ first_damaged (cells_at a nodes_at words.now) }
{
    match nodes::first_given_back(words) {
        None => false,
        Some(first) => node_is_damaged(&words[nodes_at..], first as usize, limits(words)),
    }
}
