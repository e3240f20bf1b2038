// The manager in place: what a session holds, as words that the caller lends. What stands where is in specs/Places; there is no function here.
#![tactic(auto)]

use rules::Said;

// What a session holds: its numbers, a word for each of three states, the row of waiting tasks, who ranks above each task, each task's numbers, its sets and its job's rank.
// One row of words and no struct: the definitions of specs/Places say which number stands at which place, and the contracts of the crates above speak of them.
pub type Words = [u64; 1280];

// The admissions of one scan, in their order: four numbers of each, its task, its clash count, its retry count and the tick of its release.
// One row of words and no array of structs: the definitions `listed_at` and `since_at` say which number stands at which place.
pub type Admitted = [u64; 64];

// The answer to an event: what is said, and how many tasks its scan admitted.
#[derive(Clone, Copy, Debug, PartialEq, Eq)]
pub struct Reply {
    pub said: Said,
    pub admitted: u8,
}
