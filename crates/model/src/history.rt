// The histories: each item's published versions in the order in which line 46 published them, the register's own as version 0.
// The first STAMPED of them have a valid stamp. Only the newest can lack one, since a vCAS helps the head (line 42) before
// its line 46 puts a version after it; and stamps never fall along a history, since line 21 reads a counter that never falls.
// Memory and item stay two parameters: a struct of them would be needed twice, with the memory lent to be read and to be written.
use crate::memory::{
    COUNTER, GIVEN_OUT, ITEMS, ROOM, ROW, SIZE, STAMPED, STAMPS, VALUES, VERSIONS, field, get, put,
    set_field,
};

// The item's row in a column of versions, as many of them as another column says; none where a place of the row is not there.
fn row(memory: &[usize], column: usize, item: usize, count: usize) -> &[usize] {
    let start = column.wrapping_add(field(memory, ROW, item));
    let end = start.wrapping_add(field(memory, count, item));
    memory.get(start..end).unwrap_or(&[])
}

fn values(memory: &[usize], item: usize) -> &[usize] {
    row(memory, VALUES, item, VERSIONS)
}

// The stamps of the versions that have one.
fn stamps(memory: &[usize], item: usize) -> &[usize] {
    row(memory, STAMPS, item, STAMPED)
}

// The head that lines 37, 41, 32 and 51 fetch.
pub fn newest(memory: &[usize], item: usize) -> usize {
    field(memory, VERSIONS, item).saturating_sub(1)
}

pub fn value_of(memory: &[usize], item: usize, version: usize) -> usize {
    get(values(memory, item), version)
}

// The value of the item's newest published version, stamped or not; 0 where the item is not there.
pub fn present_value(memory: &[usize], item: usize) -> usize {
    if get(memory, ITEMS) <= item {
        return 0;
    }
    value_of(memory, item, newest(memory, item))
}

// What line 20 asks.
pub fn is_stamped(memory: &[usize], item: usize, version: usize) -> bool {
    version < field(memory, STAMPED, item)
}

// Line 22: "stores it only if the stamp is still TBD".
pub fn stamp(memory: &mut [usize], item: usize, version: usize, counter: usize) {
    if is_stamped(memory, item, version) {
        return;
    }
    let row = field(memory, ROW, item);
    set_field(memory, STAMPS, row.wrapping_add(version), counter);
    set_field(memory, STAMPED, item, version.wrapping_add(1));
}

// Rows are given out of the lent memory, since there is no heap. A history starts with a row for one version; "this stamp is the item's birth stamp".
pub fn begin(memory: &mut [usize], item: usize, value: usize, size: usize) {
    let row = get(memory, GIVEN_OUT);
    put(memory, GIVEN_OUT, row.wrapping_add(1));
    set_field(memory, ROW, item, row);
    set_field(memory, ROOM, item, 1);
    set_field(memory, SIZE, item, size);
    set_field(memory, VERSIONS, item, 0);
    set_field(memory, STAMPED, item, 0);
    publish(memory, item, value);
    stamp(memory, item, 0, get(memory, COUNTER));
}

// Line 46 where it succeeds: the value becomes the newest version, without a stamp.
pub fn publish(memory: &mut [usize], item: usize, value: usize) {
    make_room(memory, item);
    let row = field(memory, ROW, item);
    let versions = field(memory, VERSIONS, item);
    set_field(memory, VALUES, row.wrapping_add(versions), value);
    set_field(memory, VERSIONS, item, versions.wrapping_add(1));
}

// Moves a full row to a new one of twice its room.
fn make_room(memory: &mut [usize], item: usize) {
    let versions = field(memory, VERSIONS, item);
    let room = field(memory, ROOM, item);
    if versions < room {
        return;
    }
    let row = field(memory, ROW, item);
    let moved = get(memory, GIVEN_OUT);
    let twice = room.wrapping_add(room);
    copy(memory, VALUES, row, moved, versions);
    copy(memory, STAMPS, row, moved, versions);
    set_field(memory, ROW, item, moved);
    set_field(memory, ROOM, item, twice);
    put(memory, GIVEN_OUT, moved.wrapping_add(twice));
}

// Number by number: copy_within asks that all the places are there, and the tests of that are longer than this.
fn copy(memory: &mut [usize], column: usize, from: usize, to: usize, count: usize) {
    for version in 0..count {
        let number = field(memory, column, from.wrapping_add(version));
        set_field(memory, column, to.wrapping_add(version), number);
    }
}

// How many of the item's versions are stamped at most the handle. They are its first ones.
pub fn versions_by(memory: &[usize], item: usize, handle: usize) -> usize {
    stamps(memory, item).partition_point(|stamp| *stamp <= handle)
}

// Definition 1: "the value O had when T occurred", T having answered the handle: that of the last version stamped at most it.
// Asked of an item that is born by then; of another it answers the value of version 0.
pub fn value_at(memory: &[usize], item: usize, handle: usize) -> usize {
    let by = versions_by(memory, item, handle);
    value_of(memory, item, by.saturating_sub(1))
}

// Demand 3's k: how many versions, from the fetched one back, are stamped above the handle. Versions published after the
// fetch are stamped above the handle too, since it was below the counter already, so they are not among versions_by.
pub fn above(memory: &[usize], item: usize, version: usize, handle: usize) -> usize {
    let by = versions_by(memory, item, handle);
    version.wrapping_add(1).saturating_sub(by)
}

// Refusal 9, and a total's "one step if born after the handle".
pub fn is_born_after(memory: &[usize], item: usize, handle: usize) -> bool {
    handle < field(memory, STAMPS, field(memory, ROW, item))
}

// "the sum of sizes of the items whose value at the handle is that project", of the items noted at the start.
pub fn total_at(memory: &[usize], noted: usize, project: usize, handle: usize) -> usize {
    (0..noted)
        .filter(|item| !is_born_after(memory, *item, handle))
        .filter(|item| value_at(memory, *item, handle) == project)
        .map(|item| field(memory, SIZE, item))
        .fold(0, |total, size| total.wrapping_add(size))
}
