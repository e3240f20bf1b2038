// What a transaction waits for: the objects, one group at a time, and the highest ranked of those that hold them.
ghost use Rattle.std.specs.Prelude.{◌≡◌, ◌&&◌, ℕ, ◌%◌, ◌<◌};
ghost use Rattle.objects.specs.Objects.{bit};
ghost use Rattle.machine.specs.Places.{executing_of};
ghost use Rattle.machine.specs.Asked.{contested_groups, wait_said_in};
ghost use Rattle.seek.specs.Foremost.{foremost};
ghost use Rattle.seek.specs.Groups.{group_in, group_clashes};

use crate::bits::{has_bit, lowest_of, ones_of, with_bit};
use crate::clash::{executing_of, group_of};
use crate::tasks::Tasks;
use machine::Words;
use rules::Said;

// What is contested of one group: its objects, and the executing tasks that a transaction clashes with on them, a bit for each.
#[derive(Clone, Copy)]
pub(crate) struct Contested {
    pub objects: u64,
    pub tasks: u64,
}

// The objects of group g on which the transaction of task i clashes with executing ones, and with whom. Where it has no object in the group, nobody else is looked at.
fn contested_of(words: &Words, i: usize, g: usize) -> Contested
    requires { (i < 64) × (g < 4) }
    ensures objects { result.objects ≡ contested_groups words.now i g }
    ensures tasks { (j : ℕ) → j < 64 → bit result.tasks j ≡ (bit (executing_of words.now) j && group_clashes (group_in words.now i j g)) }
{
    let mut objects = 0;
    let mut tasks = 0;
    let at = 648 + i * 8 + g;
    if words[at] == 0 && words[at + 4] == 0 {
        return Contested { objects, tasks };
    }
    for other in Tasks(executing_of(words)) {
        let more = group_of(words, i, (other % 64) as usize, g).contested();
        objects |= more;
        if more != 0 {
            tasks = with_bit(tasks, other);
        }
    }
    Contested { objects, tasks }
}

// The highest ranked of these tasks, 64 where there is none.
fn foremost_of(words: &Words, tasks: u64) -> u64
    ensures { result ≡ foremost words.now (bit tasks) 64 }
{
    Tasks(tasks)
        .reduce(|best, other| {
            if has_bit(words[72 + (best % 64) as usize], other) {
                other
            } else {
                best
            }
        })
        .unwrap_or(64)
}

// What is said of the release of a task whose transaction waits. One group is held at a time; the lowest contested object is of the first group that has one.
pub fn wait_said(words: &Words, task: u64) -> Said
    ensures { result ≡ wait_said_in words.now (task % 64) }
{
    let i = (task % 64) as usize;
    let mut object: u64 = 0;
    let mut contested: u64 = 0;
    let mut tasks: u64 = 0;
    for g in 0..4 {
        let group = contested_of(words, i, g);
        if contested == 0 && group.objects != 0 {
            object = (g * 64) as u64 + lowest_of(group.objects);
        }
        contested += ones_of(group.objects);
        tasks |= group.tasks;
    }
    let whom = foremost_of(words, tasks);
    Said::Wait {
        object: object as u8,
        contested: contested as u16,
        whom: whom as u8,
    }
}
