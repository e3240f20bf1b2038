// A session laid into words: the numbers of each task, then who ranks above it, and its state.
ghost use Rattle.std.specs.Prelude.{◌≡◌, ◌<◌};
ghost use Rattle.machine.specs.Opened.{state_put, opened};

use crate::numbers::{four_of, put_numbers};
use machine::Words;
use placing::{put_in_rank, put_in_row, put_sets};
use rules::{Session, State};
use seek::with_bit;

// Task i in its state.
fn put_state(words: &mut Words, i: usize, state: State)
    requires { i < 64 }
    ensures { words.new ≡ state_put words.old i state }
{
    match state {
        State::Absent => {}
        State::Plain => words[4] = with_bit(words[4], i as u64),
        State::Waiting(_) => {
            words[5] = with_bit(words[5], i as u64);
            put_in_row(words, i as u64);
        }
        State::Executing => words[6] = with_bit(words[6], i as u64),
    }
}

// Lays a session into the words. Places that no session uses stay as they were.
pub fn open(words: &mut Words, s: Session)
    ensures { words.new ≡ opened words.old s }
{
    words[0] = u64::from(s.m);
    words[1] = u64::from(s.n);
    words[2] = u64::from(s.tick);
    words[3] = u64::from(s.accepted);
    words[4..8].fill(0);
    words[1224] = u64::from(s.mode);
    let end = (s.n as usize).min(64);
    for (i, task) in s.tasks[..end].iter().enumerate() {
        put_numbers(words, i, *task);
        put_sets(words, i as u64, four_of(&s.reads, i), four_of(&s.writes, i));
    }
    for (i, task) in s.tasks[..end].iter().enumerate() {
        put_in_rank(words, i as u64);
        put_state(words, i, task.state);
    }
}
