// Lines 43 to 52 of vCAS, but for line 45, which the crate take has.
#![tactic(auto)]

ghost use Rattle.std.specs.Prelude.{◌≡◌, ℕ};
ghost use Rattle.definitions.specs.Cells.{cells_at, written};
ghost use Rattle.definitions.specs.Lines.{line, no_words, its_value, returned_node, returning, line_43, line_46, line_48, line_50, line_52};
ghost use Rattle.endings.specs.Ended.{answered};
ghost use Rattle.endings.specs.Stepped.{StepsAt, ReadyAt, InItem, HasNode, HasNewNode, CanReturn};

use definitions::Answer;
use endings::reads::read_value;
use endings::reason::Reason;
use endings::site::Site;
use endings::{finish, go_on};
use tables::damage::first_is_damaged;
use tables::fields::{
    GIVEN_BACK, HEAD, HEADER_WORDS, ITEM, ITEM_WORDS, NEW, NEW_NODE, NODE, OLD, OLDER, PHASE,
    STEPS, USED, WORKER_WORDS,
};
use tables::nodes;
use tables::phases::{LOST, PUBLISHED};

// Lines 43 and 44: another value answers 0; new and old alike answer 1.
pub fn line_43(words: &mut [u32], site: Site) -> Result<Answer, Reason>
    requires { ReadyAt site words.old × HasNode site.worker words.old }
    ensures { StepsAt (line its_value line_43) site words.old (answered result) words.new }
{
    let at = HEADER_WORDS + WORKER_WORDS * site.worker;
    let phase = words[at + PHASE];
    let steps = words[at + STEPS];
    let value = read_value(words, site)?;
    if value != words[at + OLD] {
        return Ok(finish(words, site.worker, 0, steps));
    }
    if words[at + NEW] == words[at + OLD] {
        return Ok(finish(words, site.worker, 1, steps));
    }
    Ok(go_on(words, site.worker, phase + 1, steps))
}

// Line 46: the new node becomes the head, if the head is still the node fetched.
pub fn line_46(words: &mut [u32], site: Site) -> Answer
    requires { ReadyAt site words.old × InItem site.worker words.old }
    ensures { StepsAt (line no_words line_46) site words.old result words.new }
{
    let at = HEADER_WORDS + WORKER_WORDS * site.worker;
    let steps = words[at + STEPS];
    let i = words[at + ITEM] as usize;
    let head_at = site.items_at + ITEM_WORDS * i + HEAD;
    let new_node = words[at + NEW_NODE];
    if words[head_at] == words[at + NODE] {
        words[head_at] = new_node;
        words[at + NODE] = new_node;
        return go_on(words, site.worker, PUBLISHED, steps);
    }
    go_on(words, site.worker, LOST, steps)
}

// Line 48: the change is answered 1. Lines 48 and 52 have a definition each, and each is one call: no plainer as one function.
pub fn line_48(words: &mut [u32], site: Site) -> Answer
    requires { ReadyAt site words.old }
    ensures { StepsAt (line no_words line_48) site words.old result words.new }
{
    let at = HEADER_WORDS + WORKER_WORDS * site.worker;
    let steps = words[at + STEPS];
    finish(words, site.worker, 1, steps)
}

// What giving the new node back uses: its link, and the first node given back. No Site: an abandon does not ask where the items start.
pub fn returned_is_damaged(words: &[u32], nodes_at: usize, w: usize) -> bool
    requires { CanReturn nodes_at w words.now }
    ensures { (a : ℕ) → result ≡ returned_node (cells_at a nodes_at words.now) w }
{
    let at = HEADER_WORDS + WORKER_WORDS * w;
    let n = words[at + NEW_NODE] as usize;
    let link = nodes::word(&words[nodes_at..], n, OLDER);
    if words[USED] < link {
        return true;
    }
    first_is_damaged(words, nodes_at)
}

// The new node is given back: it becomes the first of those that wait. No Site, as above.
pub fn give_back(words: &mut [u32], nodes_at: usize, w: usize)
    requires { CanReturn nodes_at w words.old }
    ensures { (a : ℕ) → words.new ≡ written a nodes_at words.old (returning (cells_at a nodes_at words.old) w) }
{
    let given = words[HEADER_WORDS + WORKER_WORDS * w + NEW_NODE];
    let n = given as usize;
    let back = words[GIVEN_BACK];
    nodes::write(&mut words[nodes_at..], n, OLDER, back);
    words[GIVEN_BACK] = given + 1;
}

// Line 50: the new node is given back.
pub fn line_50(words: &mut [u32], site: Site) -> Result<Answer, Reason>
    requires { ReadyAt site words.old × HasNewNode site.worker words.old }
    ensures { StepsAt (line returned_node line_50) site words.old (answered result) words.new }
{
    let at = HEADER_WORDS + WORKER_WORDS * site.worker;
    let phase = words[at + PHASE];
    let steps = words[at + STEPS];
    if returned_is_damaged(words, site.nodes_at, site.worker) {
        return Err(Reason::Damaged);
    }
    give_back(words, site.nodes_at, site.worker);
    Ok(go_on(words, site.worker, phase + 1, steps)) // to line 51
}

// Line 52: the lost change is answered 0. A line of its own, as 48.
pub fn line_52(words: &mut [u32], site: Site) -> Answer
    requires { ReadyAt site words.old }
    ensures { StepsAt (line no_words line_52) site words.old result words.new }
{
    let at = HEADER_WORDS + WORKER_WORDS * site.worker;
    let steps = words[at + STEPS];
    finish(words, site.worker, 0, steps)
}
