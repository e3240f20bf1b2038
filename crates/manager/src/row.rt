// The scan of the row of the waiting tasks.
ghost use Rattle.std.specs.Prelude.{◌≡◌, ◌≤◌, ◌<◌};
ghost use Rattle.machine.specs.Places.{m_of, clashes_at, retries_at, release_at};
ghost use Rattle.machine.specs.Row.{executes_in, list_put, scan_in};

use machine::{Admitted, Words};
use seek::{blocked, has_room, left_of, with_bit, without_bit};

// Task i executes, and is listed at place k: its task, both its counts, and the tick of its release.
#[tactic(auto, using(crate::proofs::Laws::Scan::listed))]
fn admit(words: &mut Words, list: &mut Admitted, i: usize, k: usize)
    requires { (i < 64) × (k < 16) }
    ensures leaves { words.new ≡ executes_in words.old i }
    ensures lists { list.new ≡ list_put list.old k i (clashes_at words.old i) (retries_at words.old i) (release_at words.old i) }
{
    let base = 136 + i * 8;
    list[k * 4..k * 4 + 4].copy_from_slice(&[
        i as u64,
        words[base + 6],
        words[base + 7],
        words[base + 5],
    ]);
    words[5] = without_bit(words[5], i as u64);
    words[6] = with_bit(words[6], i as u64);
}

// The scan: the row is walked once, and closes up as it goes. How many were admitted comes back.
pub(crate) fn scan(words: &mut Words, list: &mut Admitted) -> u8
    requires { m_of words.old ≤ 16 }
    ensures says { result ≡ (scan_in words.old list.old).admitted }
    ensures leaves { words.new ≡ (scan_in words.old list.old).words }
    ensures lists { list.new ≡ (scan_in words.old list.old).list }
{
    let end = words[7].min(64) as usize;
    let mut left = left_of(words);
    let mut kept = 0;
    let mut admitted = 0;
    // A turn writes the words that the row stands in, so no iterator can hold them.
    for p in 0..end {
        let task = words[8 + p];
        if has_room(words, left, task) && !blocked(words, task) {
            admit(words, list, (task % 64) as usize, admitted);
            admitted += 1;
            left -= 1;
        } else {
            words[8 + kept] = task;
            kept += 1;
        }
    }
    words[7] = kept as u64;
    admitted as u8
}
