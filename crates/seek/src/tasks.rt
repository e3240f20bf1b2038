// A walk over the tasks whose bit is set in a word.
ghost use Rattle.std.specs.Iterator.{YieldsFirst, item_count};
ghost use Rattle.seek.specs.Tasks.{tasks_in};

use crate::bits::{lowest_of, without_bit};

// The tasks whose bit is set, lowest first.
#[derive(Drop)]
pub(crate) struct Tasks(pub u64);

impl Iterator for Tasks {
    type Item = u64;

    ghost next_gives = { YieldsFirst (λ s. tasks_in s.0) };

    ghost remaining = { item_count (λ s. tasks_in s.0) };

    fn next(&mut self) -> Option<u64> {
        if self.0 == 0 {
            return None;
        }
        let task = lowest_of(self.0);
        self.0 = without_bit(self.0, task);
        Some(task)
    }
}
