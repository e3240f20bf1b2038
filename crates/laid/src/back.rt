// A session read back from words.
ghost use Rattle.std.specs.Prelude.{◌≡◌, ◌<◌, ◌%◌};
ghost use Rattle.rules.specs.Tasks.{with_groups};
ghost use Rattle.machine.specs.Opened.{four_at, arrival_back, state_back, task_back, read_back};

use crate::numbers::Row;
use machine::Words;
use rules::{Session, State, Task, Terms, Wait};
use seek::has_bit;

// The low byte of a word.
fn low_8(word: u64) -> u8
    ensures { result ≡ word % 256 }
{
    (word % 256) as u8
}

// The low half of a word.
fn low_32(word: u64) -> u32
    ensures { result ≡ word % 4294967296 }
{
    (word % 4_294_967_296) as u32
}

fn arrival_back(code: u64) -> Option<u32>
    ensures { result ≡ arrival_back code }
{
    code.checked_sub(1).map(low_32)
}

// The state of task i, by the words that have its bit.
fn state_back(words: &Words, i: usize) -> State
    requires { i < 64 }
    ensures { result ≡ state_back words.now i }
{
    let task = i as u64;
    if has_bit(words[4], task) {
        State::Plain
    } else if has_bit(words[5], task) {
        let base = 136 + i * 8;
        State::Waiting(Wait {
            release: low_32(words[base + 5]),
            clashes: low_32(words[base + 6]),
            retries: low_32(words[base + 7]),
        })
    } else if has_bit(words[6], task) {
        State::Executing
    } else {
        State::Absent
    }
}

fn task_back(words: &Words, i: usize) -> Task
    requires { i < 64 }
    ensures { result ≡ task_back words.now i }
{
    let base = 136 + i * 8;
    Task {
        terms: Terms {
            priority: (words[base] % 65_536) as u16,
            period: low_32(words[base + 1]),
            transactions: low_8(words[base + 2]),
        },
        state: state_back(words, i),
        arrival: arrival_back(words[base + 3]),
        releases: low_8(words[base + 4]),
        rank: words[1160 + i],
    }
}

// Puts the four words that stand from a place on into a row of sets, as those of task i.
fn four_back(row: &mut Row, words: &Words, i: usize, at: usize)
    requires { (i < 64) × (at < 1276) }
    ensures { row.new ≡ with_groups row.old i (four_at words.now at) }
{
    let base = i * 4;
    row[base..base + 4].copy_from_slice(&words[at..at + 4]);
}

// The session that the words hold, with what stands past n from the session that is handed in.
pub fn read(words: &Words, s: Session) -> Session
    ensures { result ≡ read_back words.now s }
{
    let mut back = Session {
        m: low_8(words[0]),
        n: low_8(words[1]),
        mode: low_8(words[1224]),
        tick: low_32(words[2]),
        accepted: low_32(words[3]),
        ..s
    };
    let end = words[1].min(64) as usize;
    // Each of the three that make up a task goes by its number.
    for i in 0..end {
        back.tasks[i] = task_back(words, i);
        four_back(&mut back.reads, words, i, 648 + i * 8);
        four_back(&mut back.writes, words, i, 652 + i * 8);
    }
    back
}
