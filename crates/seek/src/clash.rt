// The searches for a clash. Each reads one group of two transactions at a time, where it lies.
ghost use Rattle.std.specs.Prelude.{◌≡◌, ◌%◌, ◌<◌};
ghost use Rattle.machine.specs.Asked.{clash_in, blocked_in};
ghost use Rattle.machine.specs.Places.{executing_of};
ghost use Rattle.seek.specs.Groups.{group_in, word_in, group_clashes};

use crate::tasks::Tasks;
use machine::Words;

// One group of two transactions: the words of the first, then of the second.
#[derive(Clone, Copy)]
pub(crate) struct Group {
    pub reads: u64,
    pub writes: u64,
    pub other_reads: u64,
    pub other_writes: u64,
}

impl Group {
    // The objects of the group on which the two transactions clash.
    pub(crate) fn contested(self) -> u64
        ensures { result ≡ word_in self }
    {
        objects::contested_word(self.reads, self.writes, self.other_reads, self.other_writes)
    }

    // Whether there are some.
    pub(crate) fn is_contested(self) -> bool
        ensures { result ≡ group_clashes self }
    {
        objects::group_contested(self.reads, self.writes, self.other_reads, self.other_writes)
    }
}

// Group g of the transactions of tasks i and j.
pub(crate) fn group_of(words: &Words, i: usize, j: usize, g: usize) -> Group
    requires { (i < 64) × (j < 64) × (g < 4) }
    ensures { result ≡ group_in words.now i j g }
{
    let a = 648 + i * 8 + g;
    let b = 648 + j * 8 + g;
    Group {
        reads: words[a],
        writes: words[a + 4],
        other_reads: words[b],
        other_writes: words[b + 4],
    }
}

// The executing tasks: a bit for each.
pub(crate) fn executing_of(words: &Words) -> u64
    ensures { result ≡ executing_of words.now }
{
    words[6]
}

// Whether the transactions of two tasks clash, group by group.
pub fn clash_of(words: &Words, task: u64, other: u64) -> bool
    ensures { result ≡ clash_in words.now (task % 64) (other % 64) }
{
    let i = (task % 64) as usize;
    let j = (other % 64) as usize;
    (0..4).any(|g| group_of(words, i, j, g).is_contested())
}

// Whether the transaction of a task clashes with an executing one. The first clash found ends the question.
pub fn blocked(words: &Words, task: u64) -> bool
    ensures { result ≡ blocked_in words.now (task % 64) }
{
    let i = (task % 64) as usize;
    let mut found = false;
    // The form that 01 names: a nested search over the executing tasks and the groups of objects, left by its label at the first clash found.
    'search: for other in Tasks(executing_of(words)) {
        let j = (other % 64) as usize;
        for g in 0..4 {
            if group_of(words, i, j, g).is_contested() {
                found = true;
                break 'search;
            }
        }
    }
    found
}
