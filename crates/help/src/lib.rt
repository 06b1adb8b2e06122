// Fetching a head (lines 32, 37, 41 and 51), and help: lines 20, 21 and 22, one function each for all six uses.
#![tactic(auto)]

ghost use Rattle.std.specs.Prelude.{◌≡◌, cond, not, ◌&&◌, [], ◌∷◌, ◌+◌, ◌*◌, ◌<◌, ltb, eqb, length, get_or};
ghost use Rattle.definitions.specs.Cells.{node_words, cells_at, node, stamp};
ghost use Rattle.definitions.specs.Lines.{its_stamp, fetch, help_20, help_21, help_22};
ghost use Rattle.tables.specs.Part.{stored, ◌gets◌};
ghost use Rattle.endings.specs.Ended.{answered, Reads};
ghost use Rattle.endings.specs.Stepped.{StepsAt, ReadyAt, InItem, HasNode};

use definitions::Answer;
use endings::go_on;
use endings::reason::Reason;
use endings::site::Site;
use tables::fields::{
    COUNTER, HEAD, HEADER_WORDS, ITEM, ITEM_WORDS, NODE, PHASE, SEEN, STAMP, STEPS, TBD,
    WORKER_WORDS,
};
use tables::nodes;

// A stamp that is neither a counter value nor still to be decided (TBD is a word as C has it).
pub fn bad_stamp(stamp: u32, counter: u32) -> bool
    ensures { result ≡ ltb counter stamp && not (eqb stamp 4294967295) }
{
    (counter < stamp) & (stamp != TBD)
}

// Lines 32, 37, 41 and 51: the item's head is fetched.
pub fn fetch_head(words: &mut [u32], site: Site) -> Answer
    requires { ReadyAt site words.old × InItem site.worker words.old }
    ensures { StepsAt fetch site words.old result words.new }
{
    let at = HEADER_WORDS + WORKER_WORDS * site.worker;
    let phase = words[at + PHASE];
    let steps = words[at + STEPS];
    let i = words[at + ITEM] as usize;
    words[at + NODE] = words[site.items_at + ITEM_WORDS * i + HEAD];
    go_on(words, site.worker, phase + 1, steps) // to line 20
}

// The stamp of the worker's node, where it is not damaged.
fn read_stamp(words: &[u32], site: Site) -> Result<u32, Reason>
    requires { ReadyAt site words.now × HasNode site.worker words.now }
    ensures { let m = cells_at site.items_at site.nodes_at words.now in
        Reads (its_stamp m site.worker) (m (stamp (m (node site.worker)))) result }
{
    let n = words[HEADER_WORDS + WORKER_WORDS * site.worker + NODE] as usize;
    let stamp = nodes::word(&words[site.nodes_at..], n, STAMP);
    if bad_stamp(stamp, words[COUNTER]) {
        return Err(Reason::Damaged);
    }
    Ok(stamp)
}

// Line 20: where the node's stamp is valid, help ends here.
pub fn line_20(words: &mut [u32], site: Site) -> Result<Answer, Reason>
    requires { ReadyAt site words.old × HasNode site.worker words.old }
    ensures { StepsAt help_20 site words.old (answered result) words.new }
{
    let at = HEADER_WORDS + WORKER_WORDS * site.worker;
    let phase = words[at + PHASE];
    let steps = words[at + STEPS];
    let stamp = read_stamp(words, site)?;
    if stamp == TBD {
        return Ok(go_on(words, site.worker, phase + 1, steps));
    }
    Ok(go_on(words, site.worker, phase + 3, steps))
}

// Line 21: the counter is read.
pub fn line_21(words: &mut [u32], site: Site) -> Answer
    requires { ReadyAt site words.old }
    ensures { StepsAt help_21 site words.old result words.new }
{
    let at = HEADER_WORDS + WORKER_WORDS * site.worker;
    let phase = words[at + PHASE];
    let steps = words[at + STEPS];
    words[at + SEEN] = words[COUNTER];
    go_on(words, site.worker, phase + 1, steps)
}

// Line 22's compare-and-swap, in the node part: the number is stored only if the stamp is still to be decided. Says whether it was stored:
// no line asks that; it is promised to later callers (docs/DECISIONS.md).
pub fn store_stamp(nodes: &mut [u32], n: usize, seen: u32) -> bool
    requires { node_words * n + 2 < length nodes.old }
    ensures { (result ≡ eqb (get_or nodes.old (node_words * n + 2) 0) 4294967295)
        × (nodes.new ≡ stored nodes.old (cond result ((node_words * n + 2) gets seen ∷ []) [])) }
{
    if nodes::word(nodes, n, STAMP) == TBD {
        nodes::write(nodes, n, STAMP, seen);
        return true;
    }
    false
}

// Line 22: the compare-and-swap, with the number read at 21.
pub fn line_22(words: &mut [u32], site: Site) -> Result<Answer, Reason>
    requires { ReadyAt site words.old × HasNode site.worker words.old }
    ensures { StepsAt help_22 site words.old (answered result) words.new }
{
    let at = HEADER_WORDS + WORKER_WORDS * site.worker;
    let phase = words[at + PHASE];
    let steps = words[at + STEPS];
    let n = words[at + NODE] as usize;
    let seen = words[at + SEEN];
    read_stamp(words, site)?;
    store_stamp(&mut words[site.nodes_at..], n, seen);
    Ok(go_on(words, site.worker, phase + 1, steps))
}
