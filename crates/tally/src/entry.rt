// What one event books, by the list of its admissions.
ghost use Rattle.std.specs.Prelude.{◌≡◌, ◌&&◌, [], ◌∷◌, eqb, ◌<◌, ◌-◌, ◌%◌, ◌^◌, min};
ghost use Rattle.rules.specs.Answers.{is_wait, number};
ghost use Rattle.rules.specs.History.{is_commit, is_release};
ghost use Rattle.report.specs.Items.{commit, waits_in, written};
ghost use Rattle.report.specs.Booking.{waited_after};
ghost use Rattle.tally.specs.Listed.{listed_waits, listed_items, entering, row_entering};
ghost use Rattle.tally.specs.Parts.{Enters};

use crate::Noted;
use crate::item::{with_commit, with_wait};
use machine::Admitted;
use report::{Figures, Tally};
use rules::{Event, Kind, Refusal, Said};

// The number of what is said.
pub(crate) fn number_of(said: Said) -> u8
    ensures { result ≡ number said }
{
    match said {
        Said::No(number) => number,
        _ => 0,
    }
}

// Whether an event that was answered so is a commit that is accepted.
pub fn commits(kind: Kind, said: Said) -> bool
    ensures { result ≡ (eqb (number said) 0 && is_commit kind) }
{
    number_of(said) == 0 && matches!(kind, Kind::Commit)
}

// Whether it is a release that is accepted.
pub fn releases(kind: Kind, said: Said) -> bool
    ensures { result ≡ (eqb (number said) 0 && is_release kind) }
{
    number_of(said) == 0 && matches!(kind, Kind::Release)
}

// Whether it waits.
pub fn is_wait(said: Said) -> bool
    ensures { result ≡ is_wait said }
{
    matches!(said, Said::Wait { .. })
}

// Whether the transaction that each task released last had to wait, after an event.
pub(crate) fn waited_after(mut waited: [bool; 64], e: Event, said: Said) -> [bool; 64]
    requires { number said ≡ 0 → e.task < 64 }
    ensures { result ≡ waited_after waited e said }
{
    if releases(e.kind, said) {
        waited[usize::from(e.task)] = is_wait(said);
    }
    waited
}

// The ticks from a release to now; 0 where it would be later than now.
fn ticks_since(release: u64, tick: u32) -> u32
    ensures { result ≡ tick - release }
{
    u64::from(tick).saturating_sub(release) as u32
}

// How many of the admissions are listed: there are no more than 16 to list.
fn listed(admitted: u8) -> usize
    ensures { result ≡ min admitted 16 }
{
    usize::from(admitted.min(16))
}

// Enters a commit.
fn enter_commit(figures: &mut [Figures; 64], task: u8, waited: bool) -> Result<(), Refusal>
    ensures { Enters figures.old (commit (task % 64) waited ∷ []) result figures.new }
{
    let i = usize::from(task % 64);
    let after = with_commit(figures[i], waited);
    figures[i] = after.ok_or(Refusal::TotalPasses)?;
    Ok(())
}

// Enters the waits that a scan ended.
fn enter_waits(
    figures: &mut [Figures; 64],
    list: &Admitted,
    tick: u32,
    admitted: u8,
) -> Result<(), Refusal>
    ensures { Enters figures.old (listed_waits list.now tick (min admitted 16)) result figures.new }
{
    // The definition goes by the number of the admission, of which the list has four numbers.
    for k in 0..listed(admitted) {
        let at = k * 4;
        let i = (list[at] % 64) as usize;
        let ticks = ticks_since(list[at + 3], tick);
        let after = with_wait(figures[i], ticks, list[at + 1], list[at + 2]);
        figures[i] = after.ok_or(Refusal::TotalPasses)?;
    }
    Ok(())
}

// Writes the waits that a scan ended into the row, the first of them as wait number `from`.
fn write_waits(row: &mut [u32], from: usize, list: &Admitted, tick: u32, admitted: u8)
    requires { from < 2 ^ 40 }
    ensures { row.new ≡ written row.old from (waits_in (listed_waits list.now tick (min admitted 16))) }
{
    let places = waits::places_in(row.len());
    if places == 0 {
        return;
    }
    // The place in the row goes by the number of the admission too.
    for k in 0..listed(admitted) {
        row[(from + k) % places] = ticks_since(list[k * 4 + 3], tick);
    }
}

// Books an accepted event. Where a total would pass, it is refused, and the row is as it was.
pub fn enter(mut t: Tally, row: &mut [u32], n: Noted, list: &Admitted) -> Result<Tally, Refusal>
    ensures is { result ≡ entering t (listed_items n list.now) }
    ensures writes { row.new ≡ row_entering t (listed_items n list.now) row.old }
{
    if n.commits {
        enter_commit(&mut t.figures, n.task, n.waited)?;
    }
    // Most events that book anything are a commit that admits nobody: then no waits are counted.
    if n.admitted != 0 {
        let from = waits::waits_booked(t.figures);
        enter_waits(&mut t.figures, list, n.tick, n.admitted)?;
        write_waits(row, from, list, n.tick, n.admitted);
    }
    Ok(t)
}
