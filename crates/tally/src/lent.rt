// The two calls into a lent tally. Each reads it whole, has the call by value do the work, and writes it whole.
ghost use Rattle.std.specs.Prelude.{◌≡◌};
ghost use Rattle.report.specs.Booking.{opening, booking, row_after};

use crate::{booking, opening};
use report::{Booked, OpenSession, Opened, Tally};
use rules::{Event, Setup};

// Opens a session with its setup. On a refusal the tally is as it was.
pub fn open_session(tally: &mut Tally, u: Setup) -> Opened
    ensures { (result ≡ (opening tally.old u).opened) × (tally.new ≡ (opening tally.old u).tally) }
{
    let x = opening(*tally, u);
    *tally = x.tally;
    x.opened
}

// Runs an event in an open session and books it. On a refusal the tally and the row are as they were.
pub fn book_event(tally: &mut Tally, row: &mut [u32], o: OpenSession, e: Event) -> Booked
    ensures { (result ≡ (booking tally.old o e).booked) × (tally.new ≡ (booking tally.old o e).tally) × (row.new ≡ row_after tally.old o e row.old) }
{
    let y = booking(*tally, row, o, e);
    *tally = y.tally;
    y.booked
}
