// The waits that are booked: how many they are, where in the row they go, and the wait at the middle and at nine tenths of those that the row holds.
#![tactic(auto)]

ghost use Rattle.std.specs.Prelude.{◌≡◌, ◌<◌, ◌^◌, ◌+◌, ◌*◌, ◌/◌, min, take};
ghost use Rattle.rising.specs.Order.{in_rising};
ghost use Rattle.report.specs.Items.{waits_booked};
ghost use Rattle.report.specs.Sheet.{kept_in, middle, nine_tenths};

use report::{Figures, Tally};
use rising::in_rising;

// The figures of all tasks.
pub type AllFigures = [Figures; 64];

// How many waits are booked, of all tasks.
pub fn waits_booked(figures: AllFigures) -> usize
    ensures is { result ≡ waits_booked figures }
    ensures fits { result < 2 ^ 40 }
{
    figures.iter().map(|f| f.waits as usize).sum()
}

// The places that waits go to, of a row that has so many.
pub fn places_in(size: usize) -> usize
    ensures { result ≡ min 4096 size }
{
    size.min(4096)
}

// How many of the last waits the row holds, from its front on.
fn kept_in(figures: AllFigures, row: &[u32]) -> usize
    ensures { result ≡ kept_in figures row.now }
{
    places_in(row.len()).min(waits_booked(figures))
}

// The wait at so many tenths of the last waits, in rising order.
fn at_tenths(t: Tally, row: &[u32], tenths: usize) -> u32
    requires { tenths < 10 }
    ensures { result ≡ in_rising ((tenths * kept_in t.figures row.now + 9) / 10) (take (kept_in t.figures row.now) row.now) }
{
    let k = kept_in(t.figures, row);
    in_rising(row, k, (tenths * k).div_ceil(10))
}

// The wait at the middle of the last waits, in rising order.
pub fn middle(t: Tally, row: &[u32]) -> u32
    ensures { result ≡ middle t row.now }
{
    at_tenths(t, row, 5)
}

// The wait at nine tenths of them.
pub fn nine_tenths(t: Tally, row: &[u32]) -> u32
    ensures { result ≡ nine_tenths t row.now }
{
    at_tenths(t, row, 9)
}
