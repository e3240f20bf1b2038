// The sets of a task.
ghost use Rattle.std.specs.Prelude.{◌≡◌, ◌%◌};
ghost use Rattle.machine.specs.Places.{sets_put};

use machine::Words;
use objects::Groups;

// The sets of a task put in their place.
pub fn put_sets(words: &mut Words, task: u64, reads: Groups, writes: Groups)
    ensures { words.new ≡ sets_put words.old (task % 64) reads writes }
{
    let base = 648 + (task % 64) as usize * 8;
    words[base..base + 4].copy_from_slice(&reads);
    words[base + 4..base + 8].copy_from_slice(&writes);
}
