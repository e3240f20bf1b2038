// Who has room.
ghost use Rattle.std.specs.Prelude.{◌≡◌, ◌%◌};
ghost use Rattle.machine.specs.Asked.{left_in, room_in};

use crate::bits::{common_of, ones_of};
use machine::Words;

// How many more than those that execute may.
pub fn left_of(words: &Words) -> u64
    ensures { result ≡ left_in words.now }
{
    words[0].saturating_sub(ones_of(words[6]))
}

// Whether, with so many left, the task has room: fewer plain tasks rank above it.
pub fn has_room(words: &Words, left: u64, task: u64) -> bool
    ensures { result ≡ room_in words.now left (task % 64) }
{
    let i = (task % 64) as usize;
    common_of(words[4], words[72 + i]) < left
}
