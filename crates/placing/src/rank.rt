// Who ranks above whom.
ghost use Rattle.std.specs.Prelude.{◌≡◌, ◌%◌, ◌<◌};
ghost use Rattle.machine.specs.Ranks.{ranks_above, ranks_moved};

use machine::Words;
use seek::{with_bit, without_bit};

// Whether task j ranks above task i: its job's rank is the smaller, or they are equal and its number is the lower.
fn ranks_above(words: &Words, i: usize, j: usize) -> bool
    requires { (i < 64) × (j < 64) }
    ensures { result ≡ ranks_above words.now i j }
{
    let mine = words[1160 + i];
    let other = words[1160 + j];
    other < mine || other == mine && j < i
}

// A task's job has a new rank: one pass over the tasks, in which each has the task above it or is above it.
pub fn put_in_rank(words: &mut Words, task: u64)
    ensures { words.new ≡ ranks_moved words.old (task % 64) }
{
    let i = (task % 64) as usize;
    let end = words[1].min(64) as usize;
    let mut above = 0;
    // Each turn writes a word of those that it reads, so no iterator can hold them.
    for j in 0..end {
        if ranks_above(words, i, j) {
            above = with_bit(above, j as u64);
            words[72 + j] = without_bit(words[72 + j], task);
        } else {
            words[72 + j] = with_bit(words[72 + j], task);
        }
    }
    words[72 + i] = above;
}
