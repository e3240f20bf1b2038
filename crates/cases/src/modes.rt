// Request 5: the same events by fixed priority and by deadline. By hand, as in rules/specs/Cases: 2 waits before 1 does, and has the higher priority; by deadline, 82 against
// 64, it is 1 that is admitted first, and its next job, due at 124, ranks last. Object 1 is 2.
use crate::{event, go, print, release, setup_of, terms_of};
use rules::{Kind, Setup, Terms};
use std::rt::HostRuntime;

// The setup in another mode.
pub(crate) fn in_mode(mode: u8, u: Setup) -> Setup {
    Setup { mode, ..u }
}

// The events, of which so many are refused.
fn one_mode(rt: &HostRuntime, u: Setup, refused: u32) {
    print::setup_line(rt, u);
    let mut s = setup::setup(u).session;
    s = go(rt, s, event(Kind::Arrive, 0, 0));
    s = go(rt, s, release(1, 0, 0, 2));
    s = go(rt, s, event(Kind::Arrive, 2, 2));
    s = go(rt, s, release(3, 2, 0, 2));
    s = go(rt, s, event(Kind::Arrive, 4, 1));
    s = go(rt, s, release(5, 1, 0, 2));
    s = go(rt, s, event(Kind::Commit, 6, 0));
    s = go(rt, s, event(Kind::Commit, 7, 2));
    s = go(rt, s, event(Kind::Commit, 8, 1));
    s = go(rt, s, event(Kind::Finish, 9, 1));
    s = go(rt, s, event(Kind::Commit, 10, 2));
    s = go(rt, s, event(Kind::Arrive, 64, 1));
    s = go(rt, s, event(Kind::Finish, 65, 1));
    s = go(rt, s, event(Kind::Finish, 66, 0));
    print::end_line(rt, s.accepted, refused);
}

pub(crate) fn both_modes(rt: &HostRuntime) {
    let u = setup_of(
        2,
        3,
        terms_of(10, 100, 2),
        terms_of(20, 60, 2),
        terms_of(30, 80, 2),
        Terms::default(),
    );
    one_mode(rt, u, 1);
    one_mode(rt, in_mode(1, u), 2);
}
