// A task's numbers and its sets, as they are laid in.
ghost use Rattle.std.specs.Prelude.{◌≡◌, ◌<◌};
ghost use Rattle.rules.specs.Tasks.{wait_of};
ghost use Rattle.machine.specs.Opened.{arrival_code, terms_put, wait_put, four_of};

use machine::Words;
use objects::Groups;
use rules::{State, Task, Wait};

// The row of a session's sets: group g of task i at place i * 4 + g.
pub(crate) type Row = [u64; 256];

// 0 where there was no arrival, and else one more than its tick.
fn arrival_code(arrival: Option<u32>) -> u64
    ensures { result ≡ arrival_code arrival }
{
    arrival.map_or(0, |tick| u64::from(tick) + 1)
}

// The wait of a waiting task, and one of which every number is 0 of any other.
fn wait_of(state: State) -> Wait
    ensures { result ≡ wait_of state }
{
    match state {
        State::Waiting(wait) => wait,
        _ => Wait::default(),
    }
}

// The numbers of task i.
pub(crate) fn put_numbers(words: &mut Words, i: usize, task: Task)
    requires { i < 64 }
    ensures { words.new ≡ wait_put (terms_put words.old i task) i (wait_of task.state) }
{
    let base = 136 + i * 8;
    let wait = wait_of(task.state);
    words[base] = u64::from(task.terms.priority);
    words[base + 1] = u64::from(task.terms.period);
    words[base + 2] = u64::from(task.terms.transactions);
    words[base + 3] = arrival_code(task.arrival);
    words[base + 4] = u64::from(task.releases);
    words[1160 + i] = task.rank;
    words[base + 5] = u64::from(wait.release);
    words[base + 6] = u64::from(wait.clashes);
    words[base + 7] = u64::from(wait.retries);
}

// The four words of task i in a row of sets.
pub(crate) fn four_of(row: &Row, i: usize) -> Groups
    requires { i < 64 }
    ensures { result ≡ four_of row.now i }
{
    let base = i * 4;
    [row[base], row[base + 1], row[base + 2], row[base + 3]]
}
