// The sheet over the logs, and the sums of a setup's tasks, as text.
//
// Read in this order: order (the tasks that waited), compose (the sheet while it is composed), lines (the sheet and the line of a log that reads badly, put into a lent
// buffer), plan (the sums, likewise).
#![tactic(auto)]

mod compose;
mod lines;
mod order;
mod plan;

pub use lines::{bad_name, sheet};
pub use plan::sums;
