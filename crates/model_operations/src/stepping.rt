// A step. What it does follows from how many steps the operation has done since the one that fetched its head: the next one
// is line 20; where that found TBD the two after it are lines 21 and 22; then come the operation's own lines.
// A line answers None where the operation goes on, and Some of its value where it ends.
use crate::workers::{Operation, Record, rest, running};
use model::history::{
    above, is_born_after, is_stamped, newest, stamp, total_at, value_at, value_of,
};
use model::memory::{
    COUNTER, COUNTER_READ, FETCH, FOUND_TBD, HANDLE, ITEM, LARGEST_COUNTER, LAST_TEST, NOTED,
    PROJECT, STEPS, VERSION, field, get, put, set_field,
};
use model::replies::{Refusal, Reply};

pub fn step(memory: &mut [usize], lent: usize, worker: usize) -> Reply {
    match running(memory, lent, worker) {
        Ok(operation) => advance(memory, worker, operation),
        Err(refusal) => Reply::from(refusal),
    }
}

// "11 and 12 during a step end the operation, make the worker idle, and answer its steps, that step included".
fn advance(memory: &mut [usize], worker: usize, operation: Operation) -> Reply {
    let steps = field(memory, STEPS, worker).wrapping_add(1);
    set_field(memory, STEPS, worker, steps);
    let mut record = Record {
        memory,
        worker,
        steps,
    };
    match record.run_line(operation) {
        Ok(None) => Reply::Running { steps },
        Ok(Some(value)) => {
            rest(record.memory, worker);
            Reply::Finished { value, steps }
        }
        Err(refusal) => {
            rest(record.memory, worker);
            Reply::Refused { refusal, steps }
        }
    }
}

impl Record<'_> {
    fn run_line(&mut self, operation: Operation) -> Result<Option<usize>, Refusal> {
        match operation {
            Operation::VRead => Ok(self.v_read()),
            Operation::VCas => self.v_cas(),
            Operation::TakeSnapshot => self.take_snapshot(),
            Operation::ReadSnapshot => Ok(self.read_snapshot()),
            Operation::Total => Ok(self.total()),
        }
    }

    // "37, H on that head, 39".
    fn v_read(&mut self) -> Option<usize> {
        self.fetch_and_help()?;
        let (item, version) = (self.field(ITEM), self.field(VERSION));
        Some(value_of(self.memory, item, version))
    }

    // Line 5 reads the counter, refusal 12 where it is C. Line 6 "tries once to change the counter from the number read to one
    // more, and answers that number whether or not its own attempt succeeded".
    fn take_snapshot(&mut self) -> Result<Option<usize>, Refusal> {
        let counter = get(self.memory, COUNTER);
        if self.steps == 1 {
            Refusal::LargestCounter.when(counter == get(self.memory, LARGEST_COUNTER))?;
            self.set_field(COUNTER_READ, counter);
            return Ok(None);
        }
        let counter_read = self.field(COUNTER_READ);
        if counter == counter_read {
            put(self.memory, COUNTER, counter.wrapping_add(1));
        }
        Ok(Some(counter_read))
    }

    fn read_snapshot(&mut self) -> Option<usize> {
        self.test_stamps()?;
        let (item, handle) = (self.field(ITEM), self.field(HANDLE));
        Some(value_at(self.memory, item, handle))
    }

    // "one step if born after the handle, otherwise the steps of a readSnapshot. One closing step answers". Both are asked at the
    // step that fetches a head, once an item.
    fn total(&mut self) -> Option<usize> {
        if self.steps == self.field(FETCH) {
            let (item, noted) = (self.field(ITEM), self.field(NOTED));
            let handle = self.field(HANDLE);
            if noted <= item {
                let project = self.field(PROJECT);
                return Some(total_at(self.memory, noted, project, handle));
            }
            if is_born_after(self.memory, item, handle) {
                self.go_to_next_item();
                return None;
            }
        }
        if self.test_stamps().is_some() {
            self.go_to_next_item();
        }
        None
    }

    // The total's next item begins at the next step.
    fn go_to_next_item(&mut self) {
        let item = self.field(ITEM);
        self.set_field(ITEM, item.wrapping_add(1));
        self.set_field(FETCH, self.steps.wrapping_add(1));
    }

    // "32, H, then line 34 once per node tested": k tests move to the older version, and the one after them is the last. k
    // is found when help is over. None but at the last test.
    fn test_stamps(&mut self) -> Option<()> {
        if self.fetch_and_help()? == 0 {
            let (item, version) = (self.field(ITEM), self.field(VERSION));
            let handle = self.field(HANDLE);
            let k = above(self.memory, item, version, handle);
            self.set_field(LAST_TEST, self.steps.wrapping_add(k));
        }
        (self.field(LAST_TEST) <= self.steps).then_some(())
    }

    // The fetch of a head and H on it, "1 or 3 steps"; then how many of the operation's own lines are done.
    pub(crate) fn fetch_and_help(&mut self) -> Option<usize> {
        let since = self.steps.saturating_sub(self.field(FETCH));
        match since {
            // Lines 37, 41, 32 and 51.
            0 => {
                let item = self.field(ITEM);
                let version = newest(self.memory, item);
                self.set_field(VERSION, version);
            }
            // Line 20.
            1 => {
                let (item, version) = (self.field(ITEM), self.field(VERSION));
                let found_tbd = !is_stamped(self.memory, item, version);
                self.set_flag(FOUND_TBD, found_tbd);
            }
            _ if !self.is_set(FOUND_TBD) => return Some(since.saturating_sub(2)),
            // Line 21.
            2 => {
                let counter = get(self.memory, COUNTER);
                self.set_field(COUNTER_READ, counter);
            }
            // Line 22.
            3 => {
                let (item, version) = (self.field(ITEM), self.field(VERSION));
                let counter_read = self.field(COUNTER_READ);
                stamp(self.memory, item, version, counter_read);
            }
            _ => return Some(since.saturating_sub(4)),
        }
        None
    }
}
