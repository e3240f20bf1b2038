// How a program was called, and the log that a word of the call names.
ghost use Rattle.std.specs.Prelude.{◌≡◌, cond, ◌-◌, ◌≤◌, leb, length, is_some, IfOk, IsOkAnd, IfSome};
ghost use Rattle.io.specs.Counts.{IsPrefixLen};
ghost use Rattle.outside.specs.World.{StandardInput};

use crate::out::{cannot, failed, wrong};
use crate::source::{Source, descriptor_path};
use crate::words::{number_of, word_of};
use crate::{Call, LONGEST_NAME, Log, Verdict, Word};
use std::env::FillError;
use std::fs::File;
use std::io::{Error, ErrorKind};
use std::rt::{Env, HostRuntime};

// Word i of the call, put at the front of the lent bytes: how many bytes it has, and none where the call has no such word or there is no room for it.
pub fn word_at(rt: &HostRuntime, i: usize, word: &mut [u8]) -> Option<usize>
    ensures { IfSome result (λ size. IsPrefixLen size word.new) }
{
    rt.arg(i, word).ok()
}

// How many words the call has, the program's name among them.
fn word_count(rt: &HostRuntime) -> usize {
    (0..usize::MAX)
        .find(|&i| matches!(rt.arg(i, &mut []), Err(FillError::NotPresent)))
        .unwrap_or(usize::MAX)
}

// The descriptor for the verdict: the first word says that the second is its number.
fn verdict_descriptor(rt: &HostRuntime) -> Option<i32> {
    let mut word = [0u8; 16];
    let size = word_at(rt, 1, &mut word)?;
    if &word[..size] != b"--verdict".as_slice() {
        return None;
    }
    let size = word_at(rt, 2, &mut word)?;
    i32::try_from(number_of(&word[..size])?).ok()
}

// How the program was called: `--verdict N` before its own words gives it the descriptor N for its verdict.
pub fn called(rt: &HostRuntime) -> Call
    ensures { result.first ≡ cond (is_some result.verdict) 3 1 }
{
    let verdict = verdict_descriptor(rt);
    Call {
        first: if verdict.is_some() { 3 } else { 1 },
        end: word_count(rt),
        verdict,
    }
}

// Says which word of a call is one too many. One that is too long for a name is left out.
fn too_many(rt: &HostRuntime, program: &[u8], i: usize) -> Verdict
    ensures { result ≡ Verdict.Wrong }
{
    let mut word = [0u8; LONGEST_NAME];
    let size = word_at(rt, i, &mut word).unwrap_or(0);
    wrong(rt, program, b"a word too many", &word[..size])
}

// Whether a call has no more than so many words of its own. Where it has more, the first of those is said, and the program was called wrongly.
pub fn few_enough(rt: &HostRuntime, program: &[u8], c: Call, most: usize) -> Result<(), Verdict>
    ensures { result ≡ cond (leb (c.end - c.first) most) (Ok tt) (Err Verdict.Wrong) }
{
    if c.end.saturating_sub(c.first) <= most {
        return Ok(());
    }
    Err(too_many(rt, program, c.first + most))
}

// Standard input, whose name is `-`.
fn input_log(rt: &HostRuntime, name: &mut [u8]) -> Log
    ensures size { IsPrefixLen result.size name.new }
    ensures input { StandardInput name.old name.new result }
{
    let size = name.len().min(1);
    if let Some(first) = name.first_mut() {
        *first = b'-';
    }
    Log {
        source: Source::Input(rt.stdin()),
        size,
    }
}

// Says that a name is longer than any that the system takes, by its place among the words.
fn too_long(rt: &HostRuntime, program: &[u8], place: usize) -> Verdict
    ensures { result ≡ Verdict.Failed }
{
    let mut digits = [0u8; 20];
    let size = io::decimal(place as u64, &mut digits);
    failed(
        rt,
        &[
            program,
            b": word ",
            &digits[..size],
            b" is too long for a name\n",
        ],
    )
}

// What the environment says of word i of the call under a name, put at the front of the lent bytes: how many bytes that has, and none where nothing is said or there is no room.
fn said_of(rt: &HostRuntime, name: &str, i: usize, text: &mut [u8]) -> Option<usize>
    ensures { IfSome result (λ size. IsPrefixLen size text.new) }
{
    let name = format!(in rt.alloc(); "{name}_{i}").ok()?;
    rt.var(name.as_str(), text).ok()
}

// The error of a name that was refused for this reason.
fn refused(reason: &[u8]) -> Error {
    Error::new(
        ErrorKind::InvalidInput,
        std::str::from_utf8(reason).unwrap_or(""),
    )
}

// Opens the file that word i of the call names where that name is no text: the standard library takes names of text alone, so the launcher opens it, and says in the environment
// which descriptor it has, or why it could not be opened.
fn open_handed(rt: &HostRuntime, i: usize) -> std::io::Result<File> {
    let mut text = [0u8; 80];
    if let Some(size) = said_of(rt, "SHADEBROOK_OPENED", i, &mut text)
        && let Some(number) = number_of(&text[..size])
    {
        return File::open(rt, descriptor_path(rt, number)?.as_str());
    }
    match said_of(rt, "SHADEBROOK_REFUSED", i, &mut text) {
        Some(size) => Err(refused(&text[..size])),
        None => Err(refused(b"a name that is no text")),
    }
}

// Opens the file that word i of the call names, for reading.
fn open_read(rt: &HostRuntime, i: usize, name: &[u8]) -> std::io::Result<File> {
    match std::str::from_utf8(name) {
        Ok(path) => File::open(rt, path),
        Err(_) => open_handed(rt, i),
    }
}

// Opens the log of this name, word i of the call, for reading. What is wrong is said.
fn opened(rt: &HostRuntime, program: &[u8], i: usize, name: &[u8]) -> Result<Log, Verdict>
    ensures { IfOk result (λ log. log.size ≡ length name.now) }
{
    let source = match word_of(name) {
        Word::Input => Source::Input(rt.stdin()),
        Word::Empty => return Err(wrong(rt, program, b"a name is empty", b"")),
        Word::Flag => return Err(wrong(rt, program, b"unknown flag", name)),
        Word::Name => match open_read(rt, i, name) {
            Ok(file) => Source::Opened(file),
            Err(error) => return Err(cannot(rt, name, Some(error))),
        },
    };
    Ok(Log {
        source,
        size: name.len(),
    })
}

// The log that word i of a call names, with its name put into the lent bytes; standard input where the call has no such word. What is wrong is said.
pub fn log_of(
    rt: &HostRuntime,
    program: &[u8],
    c: Call,
    i: usize,
    name: &mut [u8],
) -> Result<Log, Verdict>
    ensures size { IfOk result (λ log. IsPrefixLen log.size name.new) }
    ensures input { c.end ≤ i → IsOkAnd result (StandardInput name.old name.new) }
{
    if c.end <= i {
        return Ok(input_log(rt, name));
    }
    let Some(size) = word_at(rt, i, name) else {
        let place = if c.first <= i { i - c.first + 1 } else { i };
        return Err(too_long(rt, program, place));
    };
    opened(rt, program, i, &name[..size])
}
