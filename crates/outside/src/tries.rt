// Calls of the system that are worth another try.
ghost use Rattle.std.specs.Prelude.{◌≡◌, pos, unwrap_or};
ghost use Rattle.std.specs.IoError.{raw_os_error};
ghost use Rattle.outside.specs.World.{passing};

use std::io::Error;
use std::rt::{Clock, HostRuntime};
use std::time::Duration;

// A call that was interrupted, and one that would have had to wait, by the system's number.
const EINTR: i32 = 4;

const EAGAIN: i32 = 11;

// Lets a millisecond pass.
fn rest(rt: &HostRuntime) {
    rt.sleep(Duration::from_millis(1));
}

// Whether a call that failed with this error is tried again: it was interrupted, or would have had to wait. In the second case there is a rest first, so that a program that
// waits for its reader keeps no processor busy.
pub fn again(rt: &HostRuntime, error: i32) -> bool
    ensures { result ≡ passing error }
{
    if error == EAGAIN {
        rest(rt);
        return true;
    }
    error == EINTR
}

// The system's number of an error, and 0 for one that is not the system's.
pub fn code_of(error: Error) -> i32
    ensures { result ≡ unwrap_or (raw_os_error error) (pos 0) }
{
    error.raw_os_error().unwrap_or(0)
}
