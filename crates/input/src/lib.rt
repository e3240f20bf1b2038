// Bytes from a reader, in a window: read behind those that it holds, and what is left of them moved to its front.
#![tactic(auto)]

ghost use Rattle.std.specs.Prelude.{◌≡◌, ◌++◌, ◌≤◌, ◌<◌, ◌+◌, length, drop, IfOk};
ghost use Rattle.input.specs.Block.{Kept, Behind, Read, Explained};
ghost use Rattle.input.specs.Part.{part};

use std::io::{Error, Read};
use std::rt::HostRuntime;

// What one read gives: where the bytes in the window end, and whether the input has ended.
#[derive(Clone, Copy, Debug, PartialEq, Eq)]
pub struct Block {
    pub end: usize,
    pub last: bool,
}

// Why nothing was read: the error of the read that failed, and none where the window had no room.
#[derive(Clone, Copy, Debug)]
pub struct Unread {
    pub error: Option<Error>,
}

// Reads behind the bytes that wait, as often as it is worth another try. The answer is how many bytes came, or the error where it failed.
fn read_tries<R: Read>(
    rt: &HostRuntime,
    from: &mut R,
    window: &mut [u8],
    filled: usize,
) -> Result<usize, Error>
    requires { filled < length window.old }
    ensures kept { Kept window.old filled window.new }
    ensures within { IfOk result (λ more. filled + more ≤ length window.old) }
{
    // A loop with no end would need a handle, and the project has none.
    for _ in 0..u64::MAX {
        match from.read(&mut window[filled..]) {
            Err(error) if outside::again(rt, outside::code_of(error)) => {}
            outcome => return outcome,
        }
    }
    Ok(0)
}

// Reads behind the bytes that wait. Where the input has ended, or the read failed, nothing came.
fn read_behind<R: Read>(
    rt: &HostRuntime,
    from: &mut R,
    window: &mut [u8],
    filled: usize,
) -> Result<Block, Unread>
    requires { filled < length window.old }
    ensures { Behind window.old filled window.new result }
{
    match read_tries(rt, from, window, filled) {
        Ok(more) => Ok(Block {
            end: filled + more,
            last: more == 0,
        }),
        Err(error) => Err(Unread { error: Some(error) }),
    }
}

// Reads behind the bytes that the window holds, at least one byte unless the input has ended or the read failed. Which bytes come is the system's to say. A window with no
// room, or that would hold more bytes than it has, is not read, which is a failure.
// The loop over the windows stands in each program: a public function that took what is done with a window as a closure would have to require that it may be called.
pub fn read_block<R: Read>(
    rt: &HostRuntime,
    from: &mut R,
    window: &mut [u8],
    filled: usize,
) -> Result<Block, Unread>
    ensures within { IfOk result (λ block. block.end ≤ length window.old) }
    ensures reads { Read window.old filled window.new result }
    ensures error { Explained window.old filled result }
{
    if window.len() <= filled {
        return Err(Unread { error: None });
    }
    read_behind(rt, from, window, filled)
}

// Moves the bytes from a place up to an end to the front, and answers how many they are. The bytes after them stay.
pub fn to_front(window: &mut [u8], from: usize, end: usize) -> usize
    ensures says { result ≡ length (part from end window.old) }
    ensures leaves { window.new ≡ part from end window.old ++ drop (length (part from end window.old)) window.old }
{
    let end = end.min(window.len());
    let from = from.min(end);
    window.copy_within(from..end, 0);
    end - from
}
