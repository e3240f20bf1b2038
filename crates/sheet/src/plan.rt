// The sums of all tasks for a wait of one length, as text: composed from the front, and then put whole into a lent buffer, or not at all.
ghost use Rattle.std.specs.Prelude.{◌≡◌, ◌≤◌, ◌++◌, is_ok};
ghost use Rattle.text.specs.Lines.{joined};
ghost use Rattle.text.specs.Written.{wrote, buffer_after, Pushes, Within};
ghost use Rattle.sheet.specs.Sums.{sum_columns, sum_text, sum_rows, sums_text};

use crate::compose::push_long;
use arrayvec::{ArrayVec, CapacityError};
use rules::Session;
use text::{push_number, push_rest, push_word, put_word};

// A task's number and its sum.
fn push_sum<const N: usize>(
    line: &mut ArrayVec<u8, N>,
    s: Session,
    ticks: u32,
    i: u8,
) -> Result<(), CapacityError>
    ensures is { Pushes N line.old.items (sum_text s ticks i) line.new.items (is_ok result) }
    ensures short { Within 25 N line.old.items line.new.items (is_ok result) }
{
    push_number(line, u64::from(i))?;
    push_long(line, b" ", session::sum(s, i, ticks).unwrap_or(0))
}

// The names of the columns, and the rows of the first n tasks.
fn push_table<const N: usize>(
    line: &mut ArrayVec<u8, N>,
    s: Session,
    ticks: u32,
    n: u8,
) -> Result<(), CapacityError>
    requires { n ≤ 64 }
    ensures is { Pushes N line.old.items (joined sum_columns ++ sum_rows s ticks n) line.new.items (is_ok result) }
    ensures short { Within 1609 N line.old.items line.new.items (is_ok result) }
{
    push_word(line, b"task sum\n")?;
    for i in 0..n {
        push_sum(line, s, ticks, i)?;
    }
    Ok(())
}

// The whole text.
fn push_text<const N: usize>(
    line: &mut ArrayVec<u8, N>,
    s: Session,
    ticks: u32,
) -> Result<(), CapacityError>
    ensures is { Pushes N line.old.items (sums_text s ticks) line.new.items (is_ok result) }
    ensures short { Within 2048 N line.old.items line.new.items (is_ok result) }
{
    push_rest(line, b"length", &[ticks])?;
    push_table(line, s, ticks, s.n.min(64))
}

// The sums of a session's tasks for a wait of so many ticks.
pub fn sums(buf: &mut [u8], at: usize, s: Session, ticks: u32) -> Option<usize>
    ensures says { result ≡ wrote buf.old at (sums_text s ticks) }
    ensures leaves { buf.new ≡ buffer_after buf.old at (sums_text s ticks) }
{
    let mut line = ArrayVec::<u8, 2048>::new();
    push_text(&mut line, s, ticks).ok()?;
    put_word(buf, at, line.as_slice())
}
