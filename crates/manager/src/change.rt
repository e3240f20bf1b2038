// What an accepted event changes before its scan.
ghost use Rattle.std.specs.Prelude.{◌≡◌, ◌<◌};
ghost use Rattle.rules.specs.Events.{one_more};
ghost use Rattle.machine.specs.Places.{accepted_of, row_held, releases_at};
ghost use Rattle.machine.specs.Ranks.{rank_given};
ghost use Rattle.machine.specs.Events.{stamped_in, arrived_in, begun_in, runs_in, waits_in, counts_raised, raised_in, busy_in, committed_in, finished_in};

use machine::Words;
use placing::{put_in_rank, put_in_row, put_sets};
use seek::{clash_of, ones_of, with_bit, without_bit};

// One more event accepted, at this tick.
fn stamp(words: &mut Words, tick: u32)
    requires { accepted_of words.old < 1000000 }
    ensures { words.new ≡ stamped_in words.old tick }
{
    words[2] = u64::from(tick);
    words[3] += 1;
}

// The rank of a job of task i that arrives at this tick.
fn rank_given(words: &Words, tick: u32, i: usize) -> u64
    requires { i < 64 }
    ensures { result ≡ rank_given words.now tick i }
{
    let base = 136 + i * 8;
    if words[1224] == 1 {
        u64::from(tick) + words[base + 1] % 4_294_967_296
    } else {
        65_535u64.saturating_sub(words[base])
    }
}

// An absent task's job begins, and gets its rank.
#[tactic(auto, using(placing::proofs::Laws::Tasks::task_mod, crate::proofs::Laws::Places::past_stamp), unfolding(machine::specs::Events::arrived_in))]
pub(crate) fn begin(words: &mut Words, tick: u32, i: usize)
    requires { (i < 64) × (accepted_of words.old < 1000000) }
    ensures { words.new ≡ arrived_in words.old tick i }
{
    stamp(words, tick);
    words[4] = with_bit(words[4], i as u64);
    let base = 136 + i * 8;
    words[base + 3] = u64::from(tick) + 1;
    words[base + 4] = 0;
    words[1160 + i] = rank_given(words, tick, i);
    put_in_rank(words, i as u64);
}

// One more release of a plain task, before its sets stand in their place.
pub(crate) fn take_release(words: &mut Words, tick: u32, i: usize)
    requires { (i < 64) × (accepted_of words.old < 1000000) × (releases_at words.old i < 18446744073709551615) }
    ensures { words.new ≡ begun_in words.old tick i }
{
    stamp(words, tick);
    words[4] = without_bit(words[4], i as u64);
    let base = 136 + i * 8;
    words[base + 4] += 1;
}

// The release runs.
#[tactic(auto, using(placing::proofs::Laws::Tasks::task_mod), unfolding(machine::specs::Events::runs_in))]
pub(crate) fn run(words: &mut Words, i: usize)
    requires { i < 64 }
    ensures { words.new ≡ runs_in words.old i }
{
    words[6] = with_bit(words[6], i as u64);
}

// The release waits, from this tick on.
#[tactic(auto, using(placing::proofs::Laws::Tasks::task_mod), unfolding(machine::specs::Events::waits_in))]
pub(crate) fn wait(words: &mut Words, tick: u32, i: usize)
    requires { i < 64 }
    ensures { words.new ≡ waits_in words.old tick i }
{
    words[5] = with_bit(words[5], i as u64);
    let base = 136 + i * 8;
    words[base + 5] = u64::from(tick);
    words[base + 6] = 0;
    words[base + 7] = 0;
    put_in_row(words, i as u64);
}

// One more, and no more than the largest that is held.
fn one_more(count: u64) -> u64
    ensures { result ≡ one_more count }
{
    count.saturating_add(1).min(4_294_967_295)
}

// The counts of task j raised, where it ran or not.
fn raise(words: &mut Words, j: usize, ran: bool)
    requires { j < 64 }
    ensures { words.new ≡ counts_raised words.old j ran }
{
    let base = 136 + j * 8;
    words[base + 6] = one_more(words[base + 6]);
    if ran {
        words[base + 7] = one_more(words[base + 7]);
    }
}

// The counts of every waiting transaction that clashes with that of task i.
#[tactic(auto, using(placing::proofs::Laws::Tasks::task_mod, crate::proofs::Laws::Raised::ones_few, crate::proofs::Laws::Raised::raised_none, crate::proofs::Laws::Raised::raised_more), unfolding(machine::specs::Events::busy_in))]
fn raise_all(words: &mut Words, i: usize)
    requires { i < 64 }
    ensures { words.new ≡ raised_in words.old i (busy_in words.old) (row_held words.old) }
{
    let busy = ones_of(words[4]) + ones_of(words[6]);
    let end = words[7].min(64) as usize;
    // A turn writes the words that the row stands in, so no iterator can hold them.
    for p in 0..end {
        let task = words[8 + p];
        if clash_of(words, i as u64, task) {
            let ran = busy + (p as u64) < words[0];
            raise(words, (task % 64) as usize, ran);
        }
    }
}

// An executing task's transaction commits: it is plain, and its sets are gone.
#[tactic(auto, using(placing::proofs::Laws::Tasks::task_mod, machine::proofs::Laws::Places::kept, machine::proofs::Laws::Raised::raised_aside, machine::proofs::Laws::Raised::aside_low), unfolding(machine::specs::Events::committed_in))]
pub(crate) fn end_transaction(words: &mut Words, tick: u32, i: usize)
    requires { (i < 64) × (accepted_of words.old < 1000000) }
    ensures { words.new ≡ committed_in words.old tick i }
{
    raise_all(words, i);
    stamp(words, tick);
    words[4] = with_bit(words[4], i as u64);
    words[6] = without_bit(words[6], i as u64);
    put_sets(words, i as u64, [0; 4], [0; 4]);
}

// A plain task's job ends.
pub(crate) fn end_job(words: &mut Words, tick: u32, i: usize)
    requires { (i < 64) × (accepted_of words.old < 1000000) }
    ensures { words.new ≡ finished_in words.old tick i }
{
    stamp(words, tick);
    words[4] = without_bit(words[4], i as u64);
    words[136 + i * 8 + 4] = 0;
    words[1160 + i] = 0;
}
