// The manager in place: words that the caller lends hold a session, and each event changes them where they lie. What each call says and leaves is said of any words in
// the crate machine, and there it is proved that of words that hold a session it is what the rules say.
//
// Read in this order: events (the four events); below them checks (what refuses one), change (what an accepted one changes) and row (the scan).
#![tactic(auto)]

mod change;
mod checks;
mod events;
mod row;

pub use events::{arrive, commit, finish, release, step};
