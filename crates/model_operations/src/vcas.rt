// A vCAS: 41, H, 43 with 44, 45, 46; then H on the own version and 48, or 50, 51, H and 52.
use crate::workers::{Outcome, Record};
use model::history::{newest, publish, value_of};
use model::memory::{FETCH, HOLDS, ITEM, NEW, OLD, OUTCOME, TAKEN, VERSION, get, put};
use model::replies::Refusal;
use model::setup::take_node;

impl Record<'_> {
    pub(crate) fn v_cas(&mut self) -> Result<Option<usize>, Refusal> {
        // Line 50 alone comes before a fetch.
        if self.steps < self.field(FETCH) {
            give_back(self.memory);
            self.set_flag(HOLDS, false);
            return Ok(None);
        }
        let Some(own) = self.fetch_and_help() else {
            return Ok(None);
        };
        match (self.outcome(), own) {
            (Outcome::NotYet, 0) => Ok(self.compare()),
            (Outcome::NotYet, 1) => self.take_node(),
            (Outcome::NotYet, _) => Ok(self.change_head()),
            (Outcome::Succeeded, _) => Ok(Some(1)),
            (Outcome::Failed, _) => Ok(Some(0)),
        }
    }

    // "lines 43 and 44 together: value differs from old answers 0; new = old answers 1".
    fn compare(&self) -> Option<usize> {
        let (item, version) = (self.field(ITEM), self.field(VERSION));
        let old_value = self.field(OLD);
        if value_of(self.memory, item, version) != old_value {
            return Some(0);
        }
        (self.field(NEW) == old_value).then_some(1)
    }

    // Line 45.
    fn take_node(&mut self) -> Result<Option<usize>, Refusal> {
        take_node(self.memory)?;
        self.set_flag(HOLDS, true);
        Ok(None)
    }

    // Line 46 succeeds exactly if no version was published since line 41. The help on the own version comes next; where it
    // failed, line 50 comes next and the fetch of line 51 after that.
    fn change_head(&mut self) -> Option<usize> {
        let item = self.field(ITEM);
        let version = self.field(VERSION);
        if newest(self.memory, item) == version {
            let new_value = self.field(NEW);
            publish(self.memory, item, new_value);
            self.set_flag(HOLDS, false);
            self.set_outcome(Outcome::Succeeded);
            self.set_field(VERSION, version.wrapping_add(1));
            self.set_field(FETCH, self.steps);
        } else {
            self.set_outcome(Outcome::Failed);
            self.set_field(FETCH, self.steps.wrapping_add(2));
        }
        None
    }
}

// Line 50: the node waits to be taken again.
pub(crate) fn give_back(memory: &mut [usize]) {
    put(memory, TAKEN, get(memory, TAKEN).saturating_sub(1));
}
