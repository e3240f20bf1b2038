// What is put in its place in the machine's words by more than one crate: a task's sets, a job among the ranks, and a wait in the row. A task's number counts mod 64.
#![tactic(auto)]

mod rank;
mod row;
mod sets;

pub use rank::put_in_rank;
pub use row::put_in_row;
pub use sets::put_sets;
