// Bytes written out, what is said on standard error, and the verdict told. Each that says something went wrong answers the verdict that it leads to.
ghost use Rattle.std.specs.Prelude.{◌≡◌, false, None, take, IfErr};
ghost use Rattle.std.specs.Io.{WritesAtMost};
ghost use Rattle.std.specs.Io.KnownBytes.{Appends, WriteAppends};
ghost use Rattle.outside.specs.World.{Written, taken_of};

use crate::source::descriptor_path;
use crate::tries::{again, code_of};
use crate::{Call, Unsent, Verdict};
use std::fs;
use std::fs::File;
use std::io::{Error, Write};
use std::os::unix::fs::PermissionsExt;
use std::rt::HostRuntime;

// Writes once, and as often as it is worth another try where nothing was taken. The answer is how many bytes the system took, or the error where it failed.
// `input` has this loop for reads: a public function that took the call as a closure would have to require that it may be called.
fn write_some<W: Write>(rt: &HostRuntime, to: &mut W, bytes: &[u8]) -> Result<usize, Error>
    ensures within { WritesAtMost result bytes.now }
    ensures sent { WriteAppends (W.contents to.old) (W.contents to.new) result bytes.now }
{
    // A loop with no end would need a handle, and the project has none.
    for _ in 0..u64::MAX {
        match to.write(bytes) {
            Err(error) if again(rt, code_of(error)) => {}
            outcome => return outcome,
        }
    }
    Ok(0)
}

// Writes all of the bytes, or stops at the first write that fails or takes nothing.
pub fn write_out<W: Write>(rt: &HostRuntime, to: &mut W, bytes: &[u8]) -> Result<(), Unsent>
    ensures written { Written bytes.now result }
    ensures sent { Appends (W.contents to.old) (W.contents to.new) (take (taken_of bytes.now result) bytes.now) }
{
    let mut taken = 0;
    while taken < bytes.len() {
        match write_some(rt, to, &bytes[taken..]) {
            Ok(0) => return Err(Unsent { taken, error: None }),
            Ok(more) => taken += more,
            Err(error) => {
                return Err(Unsent {
                    taken,
                    error: Some(error),
                });
            }
        }
    }
    Ok(())
}

// Writes the parts to standard error, one behind the other.
fn complain(rt: &HostRuntime, parts: &[&[u8]]) {
    for part in parts {
        let _ = write_out(rt, &mut rt.stderr(), part);
    }
}

// Says on standard error, by parts that stand one behind the other, that a program failed.
pub fn failed(rt: &HostRuntime, parts: &[&[u8]]) -> Verdict
    ensures { result ≡ Verdict.Failed }
{
    complain(rt, parts);
    Verdict::Failed
}

// Says that what is named failed, with the system's reason and without its number: `NAME: REASON`.
pub fn cannot(rt: &HostRuntime, name: &[u8], error: Option<Error>) -> Verdict
    ensures { result ≡ Verdict.Failed }
{
    let Some(error) = error else {
        return failed(rt, &[name, b": nothing was taken\n"]);
    };
    let text = format!(in rt.alloc(); "{error}").unwrap_or(String::new(rt.alloc()));
    let reason = text.as_str().split(" (os error ").next().unwrap_or("");
    failed(rt, &[name, b": ", reason.as_bytes(), b"\n"])
}

// Says that a program was called wrongly: `PROGRAM: WHAT: 'WORD'`, and where the word is empty `PROGRAM: WHAT`.
pub fn wrong(rt: &HostRuntime, program: &[u8], what: &[u8], word: &[u8]) -> Verdict
    ensures { result ≡ Verdict.Wrong }
{
    if word.is_empty() {
        complain(rt, &[program, b": ", what, b"\n"]);
    } else {
        complain(rt, &[program, b": ", what, b": '", word, b"'\n"]);
    }
    Verdict::Wrong
}

// Writes the bytes up to an end to standard output. A write that fails is said.
pub fn say(rt: &HostRuntime, bytes: &[u8], end: usize) -> Result<(), Verdict>
    ensures { IfErr result (λ verdict. verdict ≡ Verdict.Failed) }
{
    let bytes = &bytes[..end.min(bytes.len())];
    let failed = |unsent: Unsent| cannot(rt, b"standard output", unsent.error);
    write_out(rt, &mut rt.stdout(), bytes).map_err(failed)
}

// What the system calls a descriptor that may be written to, by a bit of its link's mode.
const MAY_WRITE: u32 = 0o200;

// The descriptor of this number, opened anew to write behind what it has, where it may be written to.
fn open_verdict(rt: &HostRuntime, number: i32) -> Option<File> {
    let path = descriptor_path(rt, u32::try_from(number).ok()?).ok()?;
    let link = fs::symlink_metadata(rt, path.as_str()).ok()?;
    if link.permissions().mode() & MAY_WRITE == 0 {
        return None;
    }
    File::options().append(true).open(rt, path.as_str()).ok()
}

// Tells the verdict, one digit, to the descriptor that was given for it, and to none where none was. The answer is whether it was told. It takes any number, and tells its last digit.
pub fn tell(rt: &HostRuntime, c: Call, verdict: u8) -> bool
    ensures { c.verdict ≡ None → result ≡ false }
{
    let Some(number) = c.verdict else {
        return false;
    };
    let digit = [b'0' + verdict % 10];
    open_verdict(rt, number).is_some_and(|mut to| write_out(rt, &mut to, &digit).is_ok())
}
