// What the events ask of the machine's words: each question reads the words where they lie. A task's number counts mod 64.
//
// Read in this order: bits (a word with a bit for each task), tasks (a walk over them), room, clash (who clashes with whom), contest (on which objects, and with whom).
#![tactic(auto)]

mod bits;
mod clash;
mod contest;
mod room;
mod tasks;

pub use bits::{common_of, has_bit, lowest_of, ones_of, with_bit, without_bit};
pub use clash::{blocked, clash_of};
pub use contest::wait_said;
pub use room::{has_room, left_of};
