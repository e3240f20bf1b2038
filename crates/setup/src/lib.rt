// A setup: what refuses it, when two are equal, and the session that it starts.
#![tactic(auto)]

ghost use Rattle.std.specs.Prelude.{◌≡◌};
ghost use Rattle.rules.specs.Refusals.{result_number};
ghost use Rattle.rules.specs.Tasks.{fresh_task};
ghost use Rattle.rules.specs.Setup.{terms_number, setup_number, same_setup, quiet, no_session, start};

use rules::{Refusal, Said, Session, Setup, Started, State, Task, Terms};

// Whether a task's terms are allowed.
fn check_terms(t: Terms) -> Result<(), Refusal>
    ensures { result_number result ≡ terms_number t }
{
    if t.priority == 0 {
        return Err(Refusal::BadPriority);
    }
    if !(1..=86_400_000).contains(&t.period) {
        return Err(Refusal::BadPeriod);
    }
    Ok(())
}

// Whether a setup is allowed: m is tried first, then n, the mode, and the terms of the lowest task first.
pub fn check_setup(u: Setup) -> Result<(), Refusal>
    ensures { result_number result ≡ setup_number u }
{
    if !(1..=16).contains(&u.m) {
        return Err(Refusal::BadProcessors);
    }
    if !(1..=64).contains(&u.n) {
        return Err(Refusal::BadTasks);
    }
    if 1 < u.mode {
        return Err(Refusal::BadMode);
    }
    for terms in &u.terms[..u.n as usize] {
        check_terms(*terms)?;
    }
    Ok(())
}

// A session in which nothing has happened.
fn quiet_session(m: u8, n: u8, mode: u8, tasks: [Task; 64]) -> Session
    ensures { result ≡ quiet m n mode tasks }
{
    Session {
        m,
        n,
        mode,
        tick: 0,
        accepted: 0,
        tasks,
        reads: [0; 256],
        writes: [0; 256],
    }
}

// A task to which nothing has happened.
fn fresh_task(terms: Terms) -> Task
    ensures { result ≡ fresh_task terms }
{
    Task {
        terms,
        state: State::Absent,
        arrival: None,
        releases: 0,
        rank: 0,
    }
}

// A setup's answer: the fresh session, or the refusal with the session that stands in its place.
pub fn setup(u: Setup) -> Started
    ensures { result ≡ start u }
{
    let mut tasks = [fresh_task(Terms::default()); 64];
    if let Err(refusal) = check_setup(u) {
        return Started {
            said: Said::No(u8::from(refusal)),
            session: quiet_session(0, 0, 0, tasks),
        };
    }
    for (i, terms) in u.terms[..u.n as usize].iter().enumerate() {
        tasks[i] = fresh_task(*terms);
    }
    Started {
        said: Said::Ok,
        session: quiet_session(u.m, u.n, u.mode, tasks),
    }
}

// What stands in the place of a session where a setup is refused.
pub fn no_session() -> Session
    ensures { result ≡ no_session }
{
    let refused = setup(Setup {
        m: 0,
        n: 0,
        mode: 0,
        terms: [Terms::default(); 64],
    });
    refused.session
}

// Two setups are equal if m, n, the mode and the numbers of the tasks below n are. An n past the table is cut at 64. No derived equality: what stands past n means nothing.
pub fn same_setup(u: Setup, other: Setup) -> bool
    ensures { result ≡ same_setup u other }
{
    let end = (u.n as usize).min(64);
    (u.m, u.n, u.mode) == (other.m, other.n, other.mode) && u.terms[..end] == other.terms[..end]
}
