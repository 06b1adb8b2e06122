// A total's own lines, its line 32 with the skip and the closing step; and line 34, of readSnapshot and total.
ghost use Rattle.std.specs.Prelude.{◌≡◌, cond, ◌+◌, ◌*◌, ◌<◌, ◌≤◌, eqb, length, get_or};
ghost use Rattle.definitions.specs.Answers.{running};
ghost use Rattle.definitions.specs.Lines.{line, no_words, tested_node, line_34, total_32, total_34, closing};
ghost use Rattle.tables.specs.Ranges.{HasRecord};
ghost use Rattle.endings.specs.Ended.{answered};
ghost use Rattle.endings.specs.Stepped.{StepsAt, ReadyAt, InItem, HasNode, moved_on, SmallSum, item_added};

use crate::snapshot::{go_to_older, tested_is_damaged};
use definitions::Answer;
use endings::reason::Reason;
use endings::site::Site;
use endings::{finish, go_on};
use tables::damage::{sum_of, words_of_sum};
use tables::fields::{
    BIRTH, HANDLE, HEAD, HEADER_WORDS, ITEM, ITEM_WORDS, NODE, NOTED, PHASE, PROJECT, SIZE, STAMP,
    STEPS, SUM_HIGH, SUM_LOW, VALUE, WORKER_WORDS,
};
use tables::limits::limits;
use tables::nodes;
use tables::phases::{CLOSING_PHASE, TOTAL, TOTAL_START};

// A total goes on at its next item, or at its closing step.
fn go_to_place(words: &mut [u32], site: Site, place: u32, noted: u32, steps: u32) -> Answer
    requires { HasRecord site.worker words.old × (steps < 5121) }
    ensures { (result ≡ running (steps + 1)) × (words.new ≡ moved_on words.old site.worker (cond (eqb place noted) 35 30) (steps + 1)) }
{
    if place == noted {
        return go_on(words, site.worker, CLOSING_PHASE, steps);
    }
    go_on(words, site.worker, TOTAL_START, steps)
}

// A total's line 32: an item born after the handle is passed over.
pub fn total_32(words: &mut [u32], site: Site) -> Answer
    requires { ReadyAt site words.old × InItem site.worker words.old }
    ensures { StepsAt (line no_words total_32) site words.old result words.new }
{
    let at = HEADER_WORDS + WORKER_WORDS * site.worker;
    let phase = words[at + PHASE];
    let steps = words[at + STEPS];
    let item = words[at + ITEM];
    let i = item as usize;
    if words[at + HANDLE] < words[site.items_at + ITEM_WORDS * i + BIRTH] {
        let noted = words[at + NOTED];
        words[at + ITEM] = item + 1;
        return go_to_place(words, site, item + 1, noted, steps);
    }
    words[at + NODE] = words[site.items_at + ITEM_WORDS * i + HEAD];
    go_on(words, site.worker, phase + 1, steps)
}

// The sum, with the item's size where its value is the total's project.
fn sum_with(sum: u64, value: u32, project: u32, size: u32) -> u64
    requires { sum ≤ 1099511627776 }
    ensures { result ≡ sum + cond (eqb value project) size 0 }
{
    if value == project {
        return sum + u64::from(size);
    }
    sum
}

// The item's part of the sum, and the way on to the next item.
fn add_item(words: &mut [u32], site: Site, value: u32, steps: u32) -> Answer
    requires { ReadyAt site words.old × InItem site.worker words.old × SmallSum site.worker words.old × (steps < 5121) }
    ensures { (result ≡ running (steps + 1)) × (words.new ≡ item_added site.items_at site.worker value steps words.old) }
{
    let at = HEADER_WORDS + WORKER_WORDS * site.worker;
    let item = words[at + ITEM];
    let i = item as usize;
    let size = words[site.items_at + ITEM_WORDS * i + SIZE];
    let noted = words[at + NOTED];
    let sum = sum_with(
        sum_of(words[at + SUM_HIGH], words[at + SUM_LOW]),
        value,
        words[at + PROJECT],
        size,
    );
    let (high, low) = words_of_sum(sum);
    words[at + ITEM] = item + 1;
    words[at + SUM_LOW] = low;
    words[at + SUM_HIGH] = high;
    go_to_place(words, site, item + 1, noted, steps)
}

// Line 34: a stamp above the handle leads to the older node. At any other, readSnapshot answers the value, and total adds the item's size.
pub fn line_34(words: &mut [u32], site: Site, operation: u8) -> Result<Answer, Reason>
    requires { ReadyAt site words.old × InItem site.worker words.old × HasNode site.worker words.old × (operation ≡ 5 → SmallSum site.worker words.old) }
    ensures { StepsAt (cond (eqb operation 5) (line tested_node total_34) (line tested_node line_34)) site words.old (answered result) words.new }
{
    let at = HEADER_WORDS + WORKER_WORDS * site.worker;
    let steps = words[at + STEPS];
    let n = words[at + NODE] as usize;
    let handle = words[at + HANDLE];
    let limits = limits(words);
    if tested_is_damaged(&words[site.nodes_at..], n, handle, limits) {
        return Err(Reason::Damaged);
    }
    let stamp = nodes::word(&words[site.nodes_at..], n, STAMP);
    if handle < stamp { // the version is too new
        return Ok(go_to_older(words, site));
    }
    let value = nodes::word(&words[site.nodes_at..], n, VALUE);
    if operation == TOTAL {
        return Ok(add_item(words, site, value, steps));
    }
    Ok(finish(words, site.worker, value as u64, steps))
}

// A total's closing step: the sum is answered.
pub fn closing_step(words: &mut [u32], site: Site) -> Answer
    requires { ReadyAt site words.old }
    ensures { StepsAt (line no_words closing) site words.old result words.new }
{
    let at = HEADER_WORDS + WORKER_WORDS * site.worker;
    let steps = words[at + STEPS];
    let sum = sum_of(words[at + SUM_HIGH], words[at + SUM_LOW]);
    finish(words, site.worker, sum, steps)
}
