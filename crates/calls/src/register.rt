// Register: a node is taken and stamped with the present counter, and the next item's number is given.
ghost use Rattle.std.specs.Prelude.{◌<◌, get_or};
ghost use Rattle.definitions.specs.Cells.{cells_of, items_offset, nodes_offset};
ghost use Rattle.definitions.specs.Calls.{outcome, registering, registered};
ghost use Rattle.definitions.specs.Calls.Call.{register};
ghost use Rattle.definitions.specs.Promises.{Met, Done};
ghost use Rattle.endings.specs.Ended.{answered};
ghost use Rattle.endings.specs.Stepped.{CanTake};
ghost use Rattle.facts.specs.Facts.{Header};

use definitions::Answer;
use endings::accept;
use endings::reason::{Reason, answer_of, refuse};
use tables::damage::{first_is_damaged, header_is_damaged};
use tables::fields::{BIRTH, COUNTER, HEAD, ITEM_WORDS, ITEMS, ITEMS_LIMIT, PROJECTS, SIZE};
use tables::nodes;
use tables::offsets::{items_offset, nodes_offset};
use take::{next_node, none_left, take_node};

// The item and its first node, once a node is known to be left, and sound where it was given back.
fn register_taking(words: &mut [u32], value: u32, size: u32) -> Answer
    requires { Header words.old × (get_or words.old 6 0 < get_or words.old 1 0) × CanTake (nodes_offset words.old) words.old }
    ensures { Met (items_offset words.old) (nodes_offset words.old) words.old (registered (cells_of words.old) value size) result words.new }
{
    let items_at = items_offset(words);
    let nodes_at = nodes_offset(words);
    let item = words[ITEMS];
    let counter = words[COUNTER];
    let at = items_at + ITEM_WORDS * (item as usize);
    let taken = next_node(words);
    take_node(words, nodes_at);
    nodes::make(&mut words[nodes_at..], taken as usize, value, 0, counter);
    words[at + HEAD] = taken;
    words[at + BIRTH] = counter;
    words[at + SIZE] = size;
    words[ITEMS] = item + 1;
    accept(item as u64)
}

// Register where the header is not damaged: the refusals, then the item. No word of a node never used is tested: register has no line that reads or writes one.
fn register_sound(words: &mut [u32], value: u32, size: u32) -> Result<Answer, Reason>
    requires { Header words.old }
    ensures { Met (items_offset words.old) (nodes_offset words.old) words.old (registering (cells_of words.old) value size) (answered result) words.new }
{
    if words[PROJECTS] <= value {
        return Err(Reason::NoProject);
    }
    if words[ITEMS_LIMIT] <= words[ITEMS] {
        return Err(Reason::ItemsFull);
    }
    if none_left(words) {
        return Err(Reason::NodesFull);
    }
    let nodes_at = nodes_offset(words);
    if first_is_damaged(words, nodes_at) {
        return Err(Reason::Damaged);
    }
    Ok(register_taking(words, value, size))
}

// Register, on any words. Step and abandon begin so too; what follows differs, and a closure for it is no plainer.
pub fn register(words: &mut [u32], value: u32, size: u32) -> Answer
    ensures { Done (outcome words.old (register value size)) result words.new }
{
    if header_is_damaged(words) {
        return refuse(Reason::Damaged);
    }
    answer_of(register_sound(words, value, size))
}
