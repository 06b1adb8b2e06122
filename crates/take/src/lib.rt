// Which node line 45 and register take: the one most recently given back; if none waits, the lowest never used. And line 45 of vCAS.
#![tactic(auto)]

ghost use Rattle.std.specs.Prelude.{◌≡◌, ℕ, ◌+◌, ◌*◌, ◌-◌, ◌<◌, ◌≤◌, length, get_or};
ghost use Rattle.definitions.specs.Cells.{cells_at, written};
ghost use Rattle.definitions.specs.Lines.{line, taken_node, no_node, node_to_take, taking, line_45};
ghost use Rattle.endings.specs.Ended.{answered};
ghost use Rattle.endings.specs.Stepped.{StepsAt, ReadyAt, HasNode, CanTake};

use definitions::Answer;
use endings::reason::Reason;
use endings::site::Site;
use endings::{end_with, go_on};
use tables::damage::node_is_damaged;
use tables::fields::{
    GIVEN_BACK, HEADER_WORDS, NEW, NEW_NODE, NODE, NODES_LIMIT, OLDER, PHASE, STEPS, TBD, USED,
    WORKER_WORDS,
};
use tables::limits::limits;
use tables::nodes;

// No node waits, and all were used.
pub fn none_left(words: &[u32]) -> bool
    requires { 9 ≤ length words.now }
    ensures { (a b : ℕ) → result ≡ no_node (cells_at a b words.now) }
{
    nodes::first_given_back(words).is_none() & (words[NODES_LIMIT] <= words[USED])
}

// The node to take.
pub fn next_node(words: &[u32]) -> u32
    requires { 9 ≤ length words.now }
    ensures { (a b : ℕ) → result ≡ node_to_take (cells_at a b words.now) }
{
    nodes::first_given_back(words).unwrap_or(words[USED])
}

// It is taken: the chain of nodes given back, or the number of nodes ever used, moves on.
pub fn take_node(words: &mut [u32], nodes_at: usize)
    requires { CanTake nodes_at words.old }
    ensures { (a : ℕ) → words.new ≡ written a nodes_at words.old (taking (cells_at a nodes_at words.old)) }
{
    match nodes::first_given_back(words) {
        None => words[USED] += 1,
        Some(first) => {
            let next = nodes::word(&words[nodes_at..], first as usize, OLDER);
            words[GIVEN_BACK] = next;
        }
    }
}

// Line 45: a new node, not yet stamped and not yet published.
pub fn line_45(words: &mut [u32], site: Site) -> Result<Answer, Reason>
    requires { ReadyAt site words.old × HasNode site.worker words.old }
    ensures { StepsAt (line taken_node line_45) site words.old (answered result) words.new }
{
    let at = HEADER_WORDS + WORKER_WORDS * site.worker;
    let phase = words[at + PHASE];
    let steps = words[at + STEPS];
    let new = words[at + NEW];
    let older = words[at + NODE] + 1;
    if none_left(words) {
        return Ok(end_with(words, site.worker, Reason::NodesFull, steps));
    }
    let taken = next_node(words);
    let n = taken as usize;
    let limits = limits(words);
    if node_is_damaged(&words[site.nodes_at..], n, limits) {
        return Err(Reason::Damaged);
    }
    take_node(words, site.nodes_at);
    nodes::make(&mut words[site.nodes_at..], n, new, older, TBD);
    words[at + NEW_NODE] = taken;
    Ok(go_on(words, site.worker, phase + 1, steps))
}
