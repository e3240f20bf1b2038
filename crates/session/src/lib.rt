// The manager by value: a session goes in and comes back in the answer, and every answer is the one that the rules give. The session to begin with is of the crate setup;
// the events are those of the crate manager, in place.
//
// Read in this order: by_value (the calls), then total (the sum).
#![tactic(auto)]

mod by_value;
mod total;

pub use by_value::{arrive, commit, finish, release, step};
pub use total::sum;
