// The two calls by value.
ghost use Rattle.std.specs.Prelude.{◌≡◌};
ghost use Rattle.rules.specs.Refusals.{result_number};
ghost use Rattle.report.specs.Booking.{opened, open_number, opening, booking, row_after};
ghost use Rattle.tally.specs.Parts.{Inside, since_of, Lists};

use crate::Noted;
use crate::entry::{commits, enter, number_of, waited_after};
use machine::Admitted;
use report::{Booked, OpenSession, Opened, Tally, WithBooked, WithOpened};
use rules::{Admissions, Answer, Event, Refusal, Session, Setup, State, Task};

// A session of which no task has released yet.
fn open_with(session: Session) -> OpenSession
    ensures { result ≡ opened session }
{
    OpenSession {
        session,
        waited: [false; 64],
    }
}

// 10 to 14 as for any setup, then 40 where it differs from the one taken before.
fn check_opening(t: Tally, u: Setup) -> Result<(), Refusal>
    ensures { result_number result ≡ open_number t u }
{
    setup::check_setup(u)?;
    if t.taken && !setup::same_setup(t.setup, u) {
        return Err(Refusal::OtherSetup);
    }
    Ok(())
}

// Opens a session with its setup.
pub fn opening(t: Tally, u: Setup) -> WithOpened
    ensures { result ≡ opening t u }
{
    match check_opening(t, u) {
        Ok(()) => WithOpened {
            tally: Tally {
                taken: true,
                setup: u,
                ..t
            },
            opened: Opened {
                verdict: Ok(()),
                after: open_with(setup::setup(u).session),
            },
        },
        Err(refusal) => WithOpened {
            tally: t,
            opened: Opened {
                verdict: Err(refusal),
                after: open_with(setup::no_session()),
            },
        },
    }
}

// The tick that a wait of a task in this state counts from; of one that does not wait, now.
fn since_of(state: State, tick: u32) -> u32
    ensures { result ≡ since_of state tick }
{
    match state {
        State::Waiting(wait) => wait.release,
        _ => tick,
    }
}

// The list of the admissions of an answer, four numbers of each.
fn list_of(tasks: [Task; 64], tick: u32, admitted: Admissions) -> Admitted
    requires { Inside admitted }
    ensures { Lists tasks tick admitted.list admitted.count result }
{
    let mut list = [0u64; 64];
    // Admission k goes to four places of the list, from 4 k on.
    for k in 0..usize::from(admitted.count) {
        let a = admitted.list[k];
        let since = since_of(tasks[usize::from(a.task)].state, tick);
        list[k * 4] = u64::from(a.task);
        list[k * 4 + 1] = u64::from(a.clashes);
        list[k * 4 + 2] = u64::from(a.retries);
        list[k * 4 + 3] = u64::from(since);
    }
    list
}

// Runs an event in an open session and books it.
pub fn booking(t: Tally, row: &mut [u32], o: OpenSession, e: Event) -> WithBooked
    ensures is { result ≡ booking t o e }
    ensures writes { row.new ≡ row_after t o e row.old }
{
    let Answer {
        said,
        admitted,
        session,
    } = session::step(o.session, e);
    let mut booked = Booked {
        number: number_of(said),
        said,
        admitted,
        after: OpenSession {
            session,
            waited: waited_after(o.waited, e, said),
        },
    };
    if booked.number != 0 {
        return WithBooked { tally: t, booked };
    }
    let list = list_of(o.session.tasks, e.tick, admitted);
    let noted = Noted {
        tick: e.tick,
        task: e.task,
        commits: commits(e.kind, said),
        waited: o.waited[usize::from(e.task)],
        admitted: admitted.count,
    };
    match enter(t, row, noted, &list) {
        Ok(tally) => WithBooked { tally, booked },
        Err(refusal) => {
            booked.number = u8::from(refusal);
            WithBooked { tally: t, booked }
        }
    }
}
