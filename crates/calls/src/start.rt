// The starts of the five operations. Each touches the worker's record alone.
ghost use Rattle.std.specs.Prelude.{◌≡◌, ◌+◌, ◌*◌, ◌≤◌, cond, length};
ghost use Rattle.definitions.specs.Cells.{cells_of};
ghost use Rattle.definitions.specs.Damage.{worker_damaged};
ghost use Rattle.definitions.specs.Calls.{leaving, outcome, sound_item};
ghost use Rattle.definitions.specs.Calls.Call.{v_read, v_cas, take_snapshot, read_snapshot, total};
ghost use Rattle.definitions.specs.Promises.{Done};
ghost use Rattle.calls.specs.Starts.{begun, HasRoom, Begins};
ghost use Rattle.tables.specs.Ranges.{HasRecord};
ghost use Rattle.endings.specs.Ended.{number_of};
ghost use Rattle.facts.specs.Facts.{Header};
ghost use Rattle.facts.specs.Refusals.{Passes, worker_refusals};

use definitions::Answer;
use endings::accept;
use endings::reason::{Reason, refuse};
use endings::record::{IDLE, Record, write_record};
use tables::damage::{header_is_damaged, item_is_damaged, worker_is_damaged};
use tables::fields::{
    BIRTH, COUNTER, HEADER_WORDS, ITEM_WORDS, ITEMS, PHASE, PROJECTS, WORKER_WORDS, WORKERS,
};
use tables::offsets::items_offset;
use tables::phases::{
    CLOSING_PHASE, READ_SNAPSHOT_START, TAKE_SNAPSHOT_START, TOTAL_START, V_CAS_START, V_READ_START,
};

// Why a worker that is not idle is refused. It stands apart, so that what an accepted start runs is short enough to stand in each start's own code.
#[cold]
#[inline(never)]
fn busy_reason(words: &[u32], w: usize) -> Reason
    requires { HasRecord w words.now }
    ensures { number_of result ≡ cond (worker_damaged (cells_of words.now) w) 2 4 }
{
    if worker_is_damaged(words, w) {
        return Reason::Damaged;
    }
    Reason::Busy
}

// The worker is there and idle in a sound catalogue. An idle record is not tested for damage: it has none.
#[inline(always)]
fn check_idle(words: &[u32], worker: u32) -> Result<(), Reason>
    ensures { Passes (worker_refusals words.now worker) result }
{
    if header_is_damaged(words) {
        return Err(Reason::Damaged);
    }
    if words[WORKERS] <= worker {
        return Err(Reason::NoWorker);
    }
    let w = worker as usize;
    if words[HEADER_WORDS + WORKER_WORDS * w + PHASE] == 0 {
        return Ok(());
    }
    Err(busy_reason(words, w))
}

// The item is registered, and its record is sound.
fn check_item(words: &[u32], item: u32) -> Result<(), Reason>
    requires { Header words.now }
    ensures { Passes (sound_item (cells_of words.now) item) result }
{
    if words[ITEMS] <= item {
        return Err(Reason::NoItem);
    }
    if item_is_damaged(words, items_offset(words), item as usize) {
        return Err(Reason::Damaged);
    }
    Ok(())
}

// The worker's record is written where the tests passed.
fn begin(words: &mut [u32], worker: u32, tested: Result<Record, Reason>) -> Answer
    requires { HasRoom words.old worker tested }
    ensures { Done (leaving words.old (begun worker tested)) result words.new }
{
    match tested {
        Ok(fields) => {
            write_record(words, worker as usize, fields);
            accept(0)
        }
        Err(reason) => refuse(reason),
    }
}

fn vread_record(words: &[u32], worker: u32, item: u32) -> Result<Record, Reason>
    ensures { Begins words.now worker (v_read worker item) result }
{
    check_idle(words, worker)?;
    check_item(words, item)?;
    Ok(Record {
        phase: V_READ_START,
        item,
        ..IDLE
    })
}

pub fn start_vread(words: &mut [u32], worker: u32, item: u32) -> Answer
    ensures { Done (outcome words.old (v_read worker item)) result words.new }
{
    let tested = vread_record(words, worker, item);
    begin(words, worker, tested)
}

fn vcas_record(words: &[u32], worker: u32, item: u32, old: u32, new: u32) -> Result<Record, Reason>
    ensures { Begins words.now worker (v_cas worker item old new) result }
{
    check_idle(words, worker)?;
    check_item(words, item)?;
    if (words[PROJECTS] <= old) | (words[PROJECTS] <= new) {
        return Err(Reason::NoProject);
    }
    Ok(Record {
        phase: V_CAS_START,
        item,
        old,
        new,
        ..IDLE
    })
}

pub fn start_vcas(words: &mut [u32], worker: u32, item: u32, old: u32, new: u32) -> Answer
    ensures { Done (outcome words.old (v_cas worker item old new)) result words.new }
{
    let tested = vcas_record(words, worker, item, old, new);
    begin(words, worker, tested)
}

fn take_snapshot_record(words: &[u32], worker: u32) -> Result<Record, Reason>
    ensures { Begins words.now worker (take_snapshot worker) result }
{
    check_idle(words, worker)?;
    Ok(Record {
        phase: TAKE_SNAPSHOT_START,
        ..IDLE
    })
}

pub fn start_take_snapshot(words: &mut [u32], worker: u32) -> Answer
    ensures { Done (outcome words.old (take_snapshot worker)) result words.new }
{
    let tested = take_snapshot_record(words, worker);
    begin(words, worker, tested)
}

fn read_snapshot_record(
    words: &[u32],
    worker: u32,
    item: u32,
    handle: u32,
) -> Result<Record, Reason>
    ensures { Begins words.now worker (read_snapshot worker item handle) result }
{
    check_idle(words, worker)?;
    check_item(words, item)?;
    if words[COUNTER] <= handle {
        return Err(Reason::NoHandle);
    }
    let items_at = items_offset(words);
    if handle < words[items_at + ITEM_WORDS * (item as usize) + BIRTH] {
        return Err(Reason::BornLater);
    }
    Ok(Record {
        phase: READ_SNAPSHOT_START,
        item,
        handle,
        ..IDLE
    })
}

pub fn start_read_snapshot(words: &mut [u32], worker: u32, item: u32, handle: u32) -> Answer
    ensures { Done (outcome words.old (read_snapshot worker item handle)) result words.new }
{
    let tested = read_snapshot_record(words, worker, item, handle);
    begin(words, worker, tested)
}

// A total of no items goes to its closing step at once.
fn total_record(words: &[u32], worker: u32, project: u32, handle: u32) -> Result<Record, Reason>
    ensures { Begins words.now worker (total worker project handle) result }
{
    check_idle(words, worker)?;
    if words[PROJECTS] <= project {
        return Err(Reason::NoProject);
    }
    if words[COUNTER] <= handle {
        return Err(Reason::NoHandle);
    }
    let noted = words[ITEMS];
    let phase = if noted == 0 {
        CLOSING_PHASE
    } else {
        TOTAL_START
    };
    Ok(Record {
        phase,
        handle,
        project,
        noted,
        ..IDLE
    })
}

pub fn start_total(words: &mut [u32], worker: u32, project: u32, handle: u32) -> Answer
    ensures { Done (outcome words.old (total worker project handle)) result words.new }
{
    let tested = total_record(words, worker, project, handle);
    begin(words, worker, tested)
}
