// The text of a replay's lines, written into a lent buffer.
#![tactic(auto)]

mod compose;
mod lines;
mod place;

pub use compose::{push_number, push_rest, push_word};
pub use lines::{admit_line, answer_lines, bad_line, end_line, event_line, setup_line};
pub use place::{put_number, put_word};

// A list of admissions, at most sixteen, with four numbers of each: its task, its clash count, its retry count, and one that is not printed.
// The machine has such a list too; the text stands on the rules alone, so it is named here.
pub type Listed = [u64; 64];
