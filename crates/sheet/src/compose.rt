// The sheet while it is composed, from its front: each function pushes a piece on what stands, and fails where the line has no room for it.
ghost use Rattle.std.specs.Prelude.{◌≡◌, ◌+◌, ◌*◌, ◌≤◌, ◌<◌, [], ◌∷◌, ◌++◌, min, take, length, is_ok};
ghost use Rattle.text.specs.Decimal.{decimal};
ghost use Rattle.text.specs.Lines.{joined};
ghost use Rattle.text.specs.Written.{Pushes, Within};
ghost use Rattle.sheet.specs.Text.{columns, row_text, rows_text, head_text, foot_text, sheet_text, bad_front};

use crate::order::most;
use arrayvec::{ArrayVec, CapacityError};
use report::{Figures, Tally};
use text::{push_number, push_rest, push_word};

// A word and a long number, to the end of the line.
pub(crate) fn push_long<const N: usize>(
    line: &mut ArrayVec<u8, N>,
    word: &[u8],
    n: u64,
) -> Result<(), CapacityError>
    ensures is { Pushes N line.old.items (word.now ++ (decimal n ++ (10 ∷ []))) line.new.items (is_ok result) }
    ensures short { Within (length word.now + 21) N line.old.items line.new.items (is_ok result) }
{
    push_word(line, word)?;
    push_number(line, n)?;
    push_word(line, b"\n")
}

// The row of a task: its number, and its figures in the order of the columns.
fn push_row<const N: usize>(
    line: &mut ArrayVec<u8, N>,
    i: usize,
    f: &Figures,
) -> Result<(), CapacityError>
    requires { i < 64 }
    ensures is { Pushes N line.old.items (row_text i f.now) line.new.items (is_ok result) }
    ensures short { Within 80 N line.old.items line.new.items (is_ok result) }
{
    push_number(line, i as u64)?;
    push_rest(
        line,
        b"",
        &[
            f.committed,
            f.waited,
            f.clashes,
            f.retries,
            f.longest,
            f.ticks,
            f.waits,
        ],
    )
}

// The names of the columns, and the rows of the tasks.
fn push_table<const N: usize>(
    line: &mut ArrayVec<u8, N>,
    rows: &[Figures],
) -> Result<(), CapacityError>
    requires { length rows.now ≤ 64 }
    ensures is { Pushes N line.old.items (joined columns ++ rows_text (length rows.now) rows.now) line.new.items (is_ok result) }
    ensures short { Within 5178 N line.old.items line.new.items (is_ok result) }
{
    push_word(
        line,
        b"task committed waited clashes retries longest ticks waits\n",
    )?;
    for (i, f) in rows.iter().enumerate() {
        push_row(line, i, f)?;
    }
    Ok(())
}

// The lines up to the last row.
fn push_head<const N: usize>(
    line: &mut ArrayVec<u8, N>,
    logs: u32,
    rows: &[Figures],
) -> Result<(), CapacityError>
    requires { length rows.now ≤ 64 }
    ensures is { Pushes N line.old.items (head_text logs (length rows.now) rows.now) line.new.items (is_ok result) }
    ensures short { Within 5194 N line.old.items line.new.items (is_ok result) }
{
    push_rest(line, b"logs", &[logs])?;
    push_table(line, rows)
}

// The lines after the rows: what is over all tasks.
fn push_foot<const N: usize>(
    line: &mut ArrayVec<u8, N>,
    half: u32,
    nine: u32,
    rows: &[Figures],
    left: u64,
) -> Result<(), CapacityError>
    requires { length rows.now ≤ 64 }
    ensures is { Pushes N line.old.items (foot_text half nine (length rows.now) rows.now left) line.new.items (is_ok result) }
    ensures short { Within 775 N line.old.items line.new.items (is_ok result) }
{
    push_rest(line, b"middle", &[half])?;
    push_rest(line, b"ninetenths", &[nine])?;
    push_rest(line, b"most", most(rows).as_slice())?;
    push_long(line, b"left ", left)
}

// The whole sheet.
pub(crate) fn push_sheet<const N: usize>(
    line: &mut ArrayVec<u8, N>,
    logs: u32,
    t: Tally,
    row: &[u32],
    left: u64,
) -> Result<(), CapacityError>
    ensures is { Pushes N line.old.items (sheet_text logs t row.now left) line.new.items (is_ok result) }
    ensures short { Within 6656 N line.old.items line.new.items (is_ok result) }
{
    let rows = &t.figures[..usize::from(t.setup.n.min(64))];
    push_head(line, logs, rows)?;
    push_foot(
        line,
        waits::middle(t, row),
        waits::nine_tenths(t, row),
        rows,
        left,
    )
}

// What stands before the name of a log that reads badly.
pub(crate) fn push_bad_front<const N: usize>(
    line: &mut ArrayVec<u8, N>,
    number: u8,
) -> Result<(), CapacityError>
    ensures is { Pushes N line.old.items (bad_front number) line.new.items (is_ok result) }
    ensures short { Within 32 N line.old.items line.new.items (is_ok result) }
{
    push_word(line, b"bad ")?;
    push_number(line, u64::from(number))?;
    push_word(line, b" ")
}
