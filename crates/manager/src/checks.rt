// What refuses an event, tried in the order of the numbers.
ghost use Rattle.std.specs.Prelude.{◌≡◌, ◌<◌, OnOk};
ghost use Rattle.rules.specs.Refusals.{result_number};
ghost use Rattle.machine.specs.Places.{releases_at};
ghost use Rattle.machine.specs.Asked.{known_in};
ghost use Rattle.machine.specs.Events.{trying_in, early_in, arrive_number_in, finish_number_in, release_number_in, commit_number_in};

use machine::Words;
use rules::Refusal;
use seek::{has_bit, has_room, left_of};

// How many events a session accepts.
const MOST_EVENTS: u64 = 1_000_000;

// Whether m and n are allowed and the task is below n.
fn known(words: &Words, task: u8) -> bool
    ensures { result ≡ known_in words.now task }
{
    (1..=16).contains(&words[0]) && (1..=64).contains(&words[1]) && u64::from(task) < words[1]
}

// What every event tries first.
fn check_first(words: &Words, tick: u32, task: u8) -> Result<(), Refusal>
    ensures is { result_number result ≡ trying_in words.now tick task 0 }
    ensures small { OnOk result (task < 64) }
{
    if !known(words, task) {
        return Err(Refusal::UnknownTask);
    }
    if u64::from(tick) < words[2] {
        return Err(Refusal::EarlierTick);
    }
    if words[3] >= MOST_EVENTS {
        return Err(Refusal::TooManyEvents);
    }
    Ok(())
}

// Whether less than one period has passed since the last arrival: 0 is none, and else one more than its tick.
fn is_early(arrival: u64, period: u64, tick: u32) -> bool
    ensures { result ≡ early_in arrival period tick }
{
    arrival != 0 && u64::from(tick) < (arrival - 1).saturating_add(period)
}

// What refuses an arrival.
#[tactic(auto, using(crate::proofs::Laws::Numbers::arrive_given, crate::proofs::Laws::Numbers::arrive_number_is))]
pub(crate) fn check_arrive(words: &Words, tick: u32, task: u8) -> Result<(), Refusal>
    ensures { result_number result ≡ arrive_number_in words.now tick task }
{
    check_first(words, tick, task)?;
    if has_bit(words[4] | words[5] | words[6], u64::from(task)) {
        return Err(Refusal::WrongState);
    }
    let base = 136 + usize::from(task) * 8;
    if is_early(words[base + 3], words[base + 1], tick) {
        return Err(Refusal::EarlyArrival);
    }
    Ok(())
}

// What refuses a finish.
#[tactic(auto, using(crate::proofs::Laws::Numbers::finish_given, crate::proofs::Laws::Numbers::finish_number_is))]
pub(crate) fn check_finish(words: &Words, tick: u32, task: u8) -> Result<(), Refusal>
    ensures is { result_number result ≡ finish_number_in words.now tick task }
    ensures small { OnOk result (task < 64) }
{
    check_first(words, tick, task)?;
    if !has_bit(words[4], u64::from(task)) {
        return Err(Refusal::WrongState);
    }
    if !has_room(words, left_of(words), u64::from(task)) {
        return Err(Refusal::NoProcessor);
    }
    Ok(())
}

// What refuses a release. Where it is not refused there is room for one more release in its word too.
#[tactic(auto, using(crate::proofs::Laws::Numbers::release_given, crate::proofs::Laws::Numbers::release_number_is))]
pub(crate) fn check_release(words: &Words, tick: u32, task: u8) -> Result<(), Refusal>
    ensures is { result_number result ≡ release_number_in words.now tick task }
    ensures fits { OnOk result (releases_at words.now task < 18446744073709551615) }
{
    check_finish(words, tick, task)?;
    let base = 136 + usize::from(task) * 8;
    if words[base + 4] >= words[base + 2] {
        return Err(Refusal::NoReleaseLeft);
    }
    Ok(())
}

// What refuses a commit.
#[tactic(auto, using(crate::proofs::Laws::Numbers::commit_given, crate::proofs::Laws::Numbers::commit_number_is))]
pub(crate) fn check_commit(words: &Words, tick: u32, task: u8) -> Result<(), Refusal>
    ensures { result_number result ≡ commit_number_in words.now tick task }
{
    check_first(words, tick, task)?;
    if !has_bit(words[6], u64::from(task)) {
        return Err(Refusal::WrongState);
    }
    Ok(())
}
