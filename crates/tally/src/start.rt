// The tally that a season starts with.
ghost use Rattle.std.specs.Prelude.{◌≡◌};
ghost use Rattle.report.specs.Booking.{no_setup, empty_tally};

use report::{Figures, Tally};
use rules::{Setup, Terms};

// A setup that names nothing.
fn no_setup() -> Setup
    ensures { result ≡ no_setup }
{
    Setup {
        m: 0,
        n: 0,
        mode: 0,
        terms: [Terms {
            priority: 0,
            period: 0,
            transactions: 0,
        }; 64],
    }
}

// A tally into which nothing has been booked.
pub fn empty() -> Tally
    ensures { result ≡ empty_tally no_setup }
{
    Tally {
        taken: false,
        setup: no_setup(),
        figures: [Figures::default(); 64],
    }
}
