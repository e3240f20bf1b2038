// Document 01's worked cases, one of request 2 and one of request 5, each refusal from 1 to 29, how near the sum a clash count comes, each kind of record there and
// back, and a whole log moved to either kind of release.
//
// The whole session and the first item under 'Easy to get wrong' are printed as 01 has them; with each refusal it is seen that the session stays.
#![tactic(auto)]

mod back;
mod by_lists;
mod modes;
mod moved;
mod near;
mod print;
mod records;

use rules::{Event, Kind, Session, Setup, Terms};
use std::rt::HostRuntime;

// A setup of four tasks, or of the first n of them, by fixed priority.
pub(crate) fn setup_of(m: u8, n: u8, a: Terms, b: Terms, c: Terms, d: Terms) -> Setup {
    let mut terms = [Terms::default(); 64];
    terms[..4].copy_from_slice(&[a, b, c, d]);
    Setup {
        m,
        n,
        mode: 0,
        terms,
    }
}

pub(crate) fn terms_of(priority: u16, period: u32, transactions: u8) -> Terms {
    Terms {
        priority,
        period,
        transactions,
    }
}

// An event with no sets.
pub(crate) fn event(kind: Kind, tick: u32, task: u8) -> Event {
    Event {
        kind,
        tick,
        task,
        reads: [0; 4],
        writes: [0; 4],
    }
}

// A release that reads and writes objects of the first group.
pub(crate) fn release(tick: u32, task: u8, reads: u64, writes: u64) -> Event {
    Event {
        kind: Kind::Release,
        tick,
        task,
        reads: [reads, 0, 0, 0],
        writes: [writes, 0, 0, 0],
    }
}

// One event: its lines, and the session after it.
pub(crate) fn go(rt: &HostRuntime, s: Session, e: Event) -> Session {
    let answer = session::step(s, e);
    print::answer_lines(rt, e, answer);
    answer.session
}

// The setup of 'A whole session'.
pub(crate) fn session_setup() -> Setup {
    setup_of(
        2,
        3,
        terms_of(10, 100, 2),
        terms_of(30, 50, 1),
        terms_of(20, 80, 1),
        Terms::default(),
    )
}

// Its fourteen events, from 0. Object 4 is 16, object 7 is 128.
pub(crate) fn session_event(k: u8) -> Event {
    match k {
        0 => event(Kind::Arrive, 0, 0),
        1 => release(1, 0, 0, 16),
        2 => event(Kind::Arrive, 2, 1),
        3 => release(3, 1, 16, 128),
        4 => event(Kind::Arrive, 4, 2),
        5 => release(5, 2, 0, 128),
        6 => event(Kind::Commit, 6, 0),
        7 => event(Kind::Commit, 7, 2),
        8 => event(Kind::Finish, 8, 0),
        9 => event(Kind::Commit, 8, 1),
        10 => event(Kind::Finish, 9, 1),
        11 => event(Kind::Finish, 10, 0),
        12 => event(Kind::Finish, 11, 2),
        _ => event(Kind::Arrive, 12, 1),
    }
}

// 'A whole session', as its lines.
fn whole_session(rt: &HostRuntime) {
    let u = session_setup();
    print::setup_line(rt, u);
    let mut s = setup::setup(u).session;
    for k in 0..14 {
        s = go(rt, s, session_event(k));
    }
    print::end_line(rt, s.accepted, 2);
    print::sum_line(rt, session::sum(s, 1, 4));
    print::sum_line(rt, session::sum(s, 3, 4));
}

// Four tasks whose priorities rise with their numbers, on m processors.
fn rising(m: u8) -> Setup {
    setup_of(
        m,
        4,
        terms_of(10, 100, 1),
        terms_of(20, 100, 1),
        terms_of(30, 100, 1),
        terms_of(40, 100, 1),
    )
}

// 'Scanning after commits only': the release that waits at tick 8 admits task 1. It did not run at tick 7: two were executing. Object 1 is 2, object 2 is 4.
fn deferred_release_scans(rt: &HostRuntime) {
    let u = rising(2);
    print::setup_line(rt, u);
    let mut s = setup::setup(u).session;
    s = go(rt, s, event(Kind::Arrive, 0, 0));
    s = go(rt, s, release(1, 0, 0, 2));
    s = go(rt, s, event(Kind::Arrive, 2, 1));
    s = go(rt, s, release(3, 1, 0, 2));
    s = go(rt, s, event(Kind::Arrive, 4, 2));
    s = go(rt, s, release(5, 2, 0, 4));
    s = go(rt, s, event(Kind::Arrive, 6, 3));
    s = go(rt, s, event(Kind::Commit, 7, 0));
    s = go(rt, s, release(8, 3, 0, 4));
    print::end_line(rt, s.accepted, 0);
}

// A retry that ran, and some that did not. Tasks 2 and 3 wait; 3 ranks above 2, and both rank above 0 and 1. Executing, all plain, and waiting tasks ranked above:
// tick 8, for task 3: 2 + 0 + 0 < 3, a retry; for task 2: 2 + 0 + 1, none. So task 2 is admitted with 1 clash and no retry.
// tick 9, for task 3: 2 + 1 + 0, none: task 0 is plain, though it ranks below. So task 3 is admitted with 2 clashes and 1 retry.
// Object 1 is 2, object 2 is 4, object 3 is 8.
fn ran_and_did_not(rt: &HostRuntime) {
    let u = rising(3);
    print::setup_line(rt, u);
    let mut s = setup::setup(u).session;
    s = go(rt, s, event(Kind::Arrive, 0, 0));
    s = go(rt, s, release(1, 0, 8, 2));
    s = go(rt, s, event(Kind::Arrive, 2, 1));
    s = go(rt, s, release(3, 1, 0, 4));
    s = go(rt, s, event(Kind::Arrive, 4, 2));
    s = go(rt, s, release(5, 2, 0, 8));
    s = go(rt, s, event(Kind::Arrive, 6, 3));
    s = go(rt, s, release(7, 3, 2, 4));
    s = go(rt, s, event(Kind::Commit, 8, 0));
    s = go(rt, s, event(Kind::Commit, 9, 1));
    print::end_line(rt, s.accepted, 0);
}

// An event that is refused: its line, and whether the session is the same.
fn refused(rt: &HostRuntime, s: Session, e: Event) {
    let answer = session::step(s, e);
    print::answer_lines(rt, e, answer);
    print::same(rt, answer.session == s);
}

// The refusals 1 to 4, and those of 4 for each event.
fn first_refusals(rt: &HostRuntime, fresh: Session) -> Session {
    refused(rt, fresh, event(Kind::Arrive, 0, 2));
    let s = go(rt, fresh, event(Kind::Arrive, 5, 0));
    refused(rt, s, event(Kind::Arrive, 4, 1));
    let full = Session {
        accepted: 1_000_000,
        ..s
    };
    refused(rt, full, event(Kind::Arrive, 5, 1));
    refused(rt, s, event(Kind::Arrive, 6, 0));
    refused(rt, s, event(Kind::Commit, 6, 0));
    refused(rt, s, release(6, 1, 0, 1));
    refused(rt, s, event(Kind::Finish, 6, 1));
    s
}

// The refusals 5 to 7. An arrival one whole period after the last is accepted.
fn last_refusals(rt: &HostRuntime, before: Session) {
    let mut s = go(rt, before, event(Kind::Finish, 7, 0));
    refused(rt, s, event(Kind::Arrive, 104, 0));
    s = go(rt, s, event(Kind::Arrive, 105, 0));
    s = go(rt, s, event(Kind::Arrive, 106, 1));
    refused(rt, s, release(107, 0, 0, 1));
    refused(rt, s, event(Kind::Finish, 107, 0));
    s = go(rt, s, release(108, 1, 0, 1));
    s = go(rt, s, event(Kind::Commit, 109, 1));
    refused(rt, s, release(110, 1, 0, 1));
}

// A setup that is refused, and an event on the session that stands in its place.
fn bad_setup(rt: &HostRuntime, u: Setup) {
    let started = setup::setup(u);
    print::bad_line(rt, started.said);
    refused(rt, started.session, event(Kind::Arrive, 0, 0));
}

fn bad_setups(rt: &HostRuntime, a: Terms, b: Terms) {
    let none = Terms::default();
    bad_setup(rt, setup_of(0, 2, a, b, none, none));
    bad_setup(rt, setup_of(17, 2, a, b, none, none));
    bad_setup(rt, setup_of(1, 0, a, b, none, none));
    bad_setup(rt, setup_of(1, 65, a, b, none, none));
    bad_setup(rt, modes::in_mode(2, setup_of(1, 65, a, b, none, none)));
    bad_setup(rt, modes::in_mode(2, setup_of(1, 3, a, b, none, none)));
    bad_setup(rt, setup_of(1, 3, a, b, none, none));
    bad_setup(
        rt,
        setup_of(1, 2, a, terms_of(20, 86_400_001, 1), none, none),
    );
    bad_setup(rt, setup_of(1, 2, terms_of(10, 0, 1), none, none, none));
}

fn main(rt: HostRuntime) {
    let rt = &rt;
    whole_session(rt);
    deferred_release_scans(rt);
    ran_and_did_not(rt);
    modes::both_modes(rt);
    let none = Terms::default();
    let a = terms_of(10, 100, 1);
    let b = terms_of(20, 50, 1);
    let fresh = setup::setup(setup_of(1, 2, a, b, none, none)).session;
    let s = first_refusals(rt, fresh);
    last_refusals(rt, s);
    bad_setups(rt, a, b);
    near::both_ends(rt);
    near::three_tasks(rt);
    records::records(rt);
    records::mode_records(rt);
    records::logs(rt);
    records::full_log(rt);
    back::no_room(rt);
    back::bad_setups(rt);
    back::each_kind(rt);
    by_lists::written(rt);
    by_lists::no_room(rt);
    by_lists::read_back(rt);
    by_lists::all_objects(rt);
    by_lists::lengths(rt);
    by_lists::bad_lengths(rt);
    by_lists::bad_lists(rt);
    moved::one_kind_only(rt);
    moved::session_moved(rt);
}
