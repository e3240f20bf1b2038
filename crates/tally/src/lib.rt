// The tally: sessions opened and events booked, by value and into a lent tally; and an event booked by the list of its admissions.
//
// Read in this order: start (a tally into which nothing has been booked), item (one item and a task's figures), entry (what one event books), by_value (the two calls by value), lent (the same into a lent tally).
#![tactic(auto)]

mod by_value;
mod entry;
mod item;
mod lent;
mod start;

pub use by_value::{booking, opening};
pub use entry::{commits, enter, is_wait, releases};
pub use lent::{book_event, open_session};
pub use start::empty;

// What is noted of an accepted event, beside the list of its admissions: its tick, its task, whether it commits, whether the transaction that its task released last had to
// wait, and how many are admitted.
#[derive(Clone, Copy, Debug, PartialEq, Eq)]
pub struct Noted {
    pub tick: u32,
    pub task: u8,
    pub commits: bool,
    pub waited: bool,
    pub admitted: u8,
}
