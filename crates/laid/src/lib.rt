// A session laid into words that the caller lends, and read back from them. What words into which a session is laid hold, and that they give it back, is proved in the
// crate machine.
//
// Read in this order: numbers (a task's numbers and its sets), put (the whole session laid in), back (read back).
#![tactic(auto)]

mod back;
mod numbers;
mod put;

pub use back::read;
pub use put::open;
