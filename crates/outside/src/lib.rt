// What a program has to do with the world: the words that it is called with, the log that they name, what it writes, and its verdict.
//
// Read in this order: words (what a word says), verdict (what a program tells whoever called it), tries (calls that are worth another one), out (bytes written out, what is said
// on standard error, the verdict told), source (where a log's bytes come from), calls (how a program was called, and the log that a word names).
#![tactic(auto)]

mod calls;
mod out;
mod source;
mod tries;
mod verdict;
mod words;

pub use calls::{called, few_enough, log_of, word_at};
pub use out::{cannot, failed, say, tell, write_out, wrong};
pub use source::Source;
use std::io::Error;
use std::rt::HostRuntime;
pub use tries::{again, code_of};
pub use verdict::{Verdict, verdict_number};
pub use words::{number_of, word_of};

// The system takes no name of more bytes.
pub const LONGEST_NAME: usize = 4096;

// What a word of a call is: nothing at all; standard input, which is `-`; a flag, any other word that begins so; or a name.
#[derive(Clone, Copy, Debug, PartialEq, Eq)]
pub enum Word {
    Empty,
    Input,
    Flag,
    Name,
}

// How a program was called: where its own words begin and end, and the descriptor that it was given for its verdict, if any.
#[derive(Clone, Copy, Debug, PartialEq, Eq)]
pub struct Call {
    pub first: usize,
    pub end: usize,
    pub verdict: Option<i32>,
}

// A log that a word of the call names: where its bytes come from, and how many bytes its name has.
#[derive(Drop)]
pub struct Log {
    pub source: Source,
    pub size: usize,
}

// A write that stopped before all of the bytes were taken: how many were, and the error where one ended it.
#[derive(Clone, Copy, Debug)]
pub struct Unsent {
    pub taken: usize,
    pub error: Option<Error>,
}
