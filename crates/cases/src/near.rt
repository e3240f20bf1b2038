// How near the sum a clash count comes. While task 0 waits the others commit as often as they can: the job that was there when the wait began, one that arrives on
// its first tick, and one a period after each, the last on its last tick. Tasks with no transactions stay plain above task 0, so that it has no room meanwhile, and
// never runs: with one that executes they are more than m, and the retry count is 0.
use crate::{event, go, print, release, setup_of, terms_of};
use rules::{Event, Kind, Session};
use std::ops::Range;
use std::rt::HostRuntime;

// Arrivals on both ends: a wait of 10 ticks beside a task of period 10 with one transaction a job. The clash count is 3 and so is the sum, 1 × (⌊10/10⌋ + 2); the
// paper's form ⌈10/10⌉ + 1 is 2. Object 5 is 32.
pub(crate) fn both_ends(rt: &HostRuntime) {
    let idle = terms_of(20, 1000, 0);
    let u = setup_of(
        2,
        4,
        terms_of(10, 1000, 1),
        terms_of(40, 10, 1),
        terms_of(30, 1000, 0),
        idle,
    );
    print::setup_line(rt, u);
    let mut s = setup::setup(u).session;
    s = go(rt, s, event(Kind::Arrive, 0, 1));
    s = go(rt, s, release(0, 1, 0, 32));
    s = go(rt, s, event(Kind::Arrive, 10, 0));
    s = go(rt, s, release(10, 0, 0, 32));
    s = go(rt, s, event(Kind::Arrive, 10, 2));
    s = go(rt, s, event(Kind::Arrive, 10, 3));
    s = go(rt, s, event(Kind::Commit, 10, 1));
    s = go(rt, s, event(Kind::Finish, 10, 1));
    s = go(rt, s, event(Kind::Arrive, 10, 1));
    s = go(rt, s, release(10, 1, 0, 32));
    s = go(rt, s, event(Kind::Commit, 10, 1));
    s = go(rt, s, event(Kind::Finish, 10, 1));
    s = go(rt, s, event(Kind::Arrive, 20, 1));
    s = go(rt, s, release(20, 1, 0, 32));
    s = go(rt, s, event(Kind::Commit, 20, 1));
    s = go(rt, s, event(Kind::Finish, 20, 1));
    s = go(rt, s, event(Kind::Finish, 20, 2));
    print::end_line(rt, s.accepted, 0);
    print::sum_line(rt, session::sum(s, 0, 10));
}

// One event, with no line.
fn quiet(s: Session, e: Event) -> Session {
    session::step(s, e).session
}

// One transaction that writes object 5.
fn transaction(s: Session, tick: u32, task: u8) -> Session {
    let runs = quiet(s, release(tick, task, 0, 32));
    quiet(runs, event(Kind::Commit, tick, task))
}

// So many transactions of one job, and its end.
fn rest_of_job(before: Session, tick: u32, task: u8, times: u8) -> Session {
    let after = (0..times).fold(before, |s, _| transaction(s, tick, task));
    quiet(after, event(Kind::Finish, tick, task))
}

fn job(s: Session, tick: u32, task: u8, times: u8) -> Session {
    rest_of_job(quiet(s, event(Kind::Arrive, tick, task)), tick, task, times)
}

// The tasks of these numbers arrive at one tick.
fn arrive_all(before: Session, tick: u32, tasks: Range<u8>) -> Session {
    tasks.fold(before, |s, task| quiet(s, event(Kind::Arrive, tick, task)))
}

// Task 0 waits from tick 20, for task 1's transaction; the jobs that were there end on the same tick.
fn begin_wait(rt: &HostRuntime, fresh: Session) -> Session {
    let mut s = arrive_all(fresh, 0, 1..4);
    s = quiet(s, release(0, 1, 0, 32));
    s = go(rt, s, event(Kind::Arrive, 20, 0));
    s = go(rt, s, release(20, 0, 0, 32));
    s = arrive_all(s, 20, 4..8);
    s = quiet(s, event(Kind::Commit, 20, 1));
    s = rest_of_job(s, 20, 1, 1);
    s = rest_of_job(s, 20, 2, 3);
    rest_of_job(s, 20, 3, 1)
}

// The jobs that arrive from tick 20 to tick 45: every 5 ticks of task 1, every 7 of task 2, every 12 of task 3.
fn jobs_of_the_wait(waiting: Session) -> Session {
    let jobs = [
        (20, 1, 2),
        (20, 2, 3),
        (20, 3, 1),
        (25, 1, 2),
        (27, 2, 3),
        (30, 1, 2),
        (32, 3, 1),
        (34, 2, 3),
        (35, 1, 2),
        (40, 1, 2),
        (41, 2, 3),
        (44, 3, 1),
        (45, 1, 2),
    ];
    jobs.iter().fold(waiting, |s, &(tick, task, times)| job(s, tick, task, times))
}

// Three tasks at once: periods 5, 7 and 12, with 2, 3 and 1 transactions a job, over a wait of 25 ticks. The jobs that were there commit 2 + 3 + 1; those that
// arrive in the wait 6 × 2 + 4 × 3 + 3 × 1. The clash count is 33 and so is the sum, 2 × (5 + 2) + 3 × (3 + 2) + 1 × (2 + 2); the paper's form is 2 × (5 + 1) + 3 ×
// (4 + 1) + 1 × (3 + 1) = 31.
pub(crate) fn three_tasks(rt: &HostRuntime) {
    let mut u = setup_of(
        4,
        8,
        terms_of(10, 1000, 1),
        terms_of(80, 5, 2),
        terms_of(70, 7, 3),
        terms_of(60, 12, 1),
    );
    for (i, priority) in [50, 40, 30, 20].iter().enumerate() {
        u.terms[i + 4] = terms_of(*priority, 1000, 0);
    }
    print::setup_line(rt, u);
    let mut s = jobs_of_the_wait(begin_wait(rt, setup::setup(u).session));
    s = go(rt, s, event(Kind::Finish, 45, 4));
    print::sum_line(rt, session::sum(s, 0, 25));
}
