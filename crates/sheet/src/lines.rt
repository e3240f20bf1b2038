// The sheet, and the line of a log that reads badly, each written whole into a lent buffer from a place on, or not at all. The answer is the next place, and None where
// there is no room.
ghost use Rattle.std.specs.Prelude.{◌≡◌, ◌++◌};
ghost use Rattle.text.specs.Written.{wrote, buffer_after};
ghost use Rattle.sheet.specs.Text.{sheet_text, bad_text};

use crate::compose::{push_bad_front, push_sheet};
use arrayvec::ArrayVec;
use report::Tally;
use text::put_word;

// The sheet over so many logs.
pub fn sheet(
    buf: &mut [u8],
    at: usize,
    logs: u32,
    t: Tally,
    row: &[u32],
    left: u64,
) -> Option<usize>
    ensures says { result ≡ wrote buf.old at (sheet_text logs t row.now left) }
    ensures leaves { buf.new ≡ buffer_after buf.old at (sheet_text logs t row.now left) }
{
    let mut line = ArrayVec::<u8, 6656>::new();
    push_sheet(&mut line, logs, t, row, left).ok()?;
    put_word(buf, at, line.as_slice())
}

// Puts three words one after another, or none of them.
fn put_three(buf: &mut [u8], at: usize, a: &[u8], b: &[u8], c: &[u8]) -> Option<usize>
    ensures says { result ≡ wrote buf.old at (a.now ++ b.now ++ c.now) }
    ensures leaves { buf.new ≡ buffer_after buf.old at (a.now ++ b.now ++ c.now) }
{
    let rest = buf.len().checked_sub(at)?;
    rest.checked_sub(a.len())?
        .checked_sub(b.len())?
        .checked_sub(c.len())?;
    let second = put_word(buf, at, a)?;
    let third = put_word(buf, second, b)?;
    put_word(buf, third, c)
}

// The line of a log that reads badly: `bad`, the number, which may be any, and the log's name.
pub fn bad_name(buf: &mut [u8], at: usize, number: u8, name: &[u8]) -> Option<usize>
    ensures says { result ≡ wrote buf.old at (bad_text number name.now) }
    ensures leaves { buf.new ≡ buffer_after buf.old at (bad_text number name.now) }
{
    let mut front = ArrayVec::<u8, 32>::new();
    push_bad_front(&mut front, number).ok()?;
    put_three(buf, at, front.as_slice(), name, b"\n")
}
