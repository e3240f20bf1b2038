// Request 6: a log has one kind of release only, and a whole log is moved from one kind to the other. Moved is document 01's session: its setup has 4 + 2 + 8 × 3 = 30
// bytes, eleven events with no sets 9 each, the end 8. Its three releases, with 1, 2 and 1 objects, have 73 each by sets and 14, 15 and 14 by lists. So the log has
// 30 + 99 + 219 + 8 = 356 bytes by sets, and 30 + 99 + 43 + 8 = 180 by lists.
use crate::records::{first_of, whole};
use crate::{print, release, session_event, session_setup, setup_of, terms_of};
use rules::{Event, Terms};
use std::rt::HostRuntime;

// An event's record at a place, a release by lists or by sets: the place after it, and the end of the buffer where there is no room.
fn put(buf: &mut [u8], at: usize, by_lists: bool, e: Event) -> usize {
    let next = if by_lists {
        writing::write_event_by_lists(buf, at, e)
    } else {
        writing::write_event(buf, at, e)
    };
    next.unwrap_or(buf.len())
}

// A log of one task with two releases, each by lists or by sets: its number, and how many events were read. It fills the buffer, with 14 bytes of setup, the releases and
// 8 of the end.
fn two_releases(rt: &HostRuntime, buf: &mut [u8], first: bool, second: bool) {
    let none = Terms::default();
    let u = setup_of(1, 1, terms_of(1, 1, 2), none, none, none);
    let _ = writing::write_setup(buf, 0, u);
    let middle = put(buf, 14, first, release(3, 0, 1, 2));
    let end = put(buf, middle, second, release(4, 0, 1, 2));
    let _ = writing::write_end(buf, end, 2);
    whole(rt, buf);
}

// 24 for a release by lists behind one by sets, and by sets behind one by lists; two of one kind are good. Each reads object 0 and writes 1: 73 bytes by sets, 15 by lists.
pub(crate) fn one_kind_only(rt: &HostRuntime) {
    two_releases(rt, &mut [0; 110], false, true);
    two_releases(rt, &mut [0; 110], true, false);
    two_releases(rt, &mut [0; 168], false, false);
    two_releases(rt, &mut [0; 52], true, true);
}

// The session as a log, by sets.
fn session_log(buf: &mut [u8]) {
    let _ = writing::write_setup(buf, 0, session_setup());
    let mut at: usize = 30;
    for k in 0..14 {
        at = put(buf, at, false, session_event(k));
    }
    let _ = writing::write_end(buf, at, 14);
}

// There and back gives the same bytes.
fn there_and_back(rt: &HostRuntime, sets: &[u8], lists: &[u8]) {
    let mut there = [9u8; 180];
    let mut back = [9u8; 356];
    print::moved(rt, moving::convert(sets, 8, &mut there));
    print::same(rt, there.as_slice() == lists);
    print::moved(rt, moving::convert(&there, 3, &mut back));
    print::same(rt, back.as_slice() == sets);
}

// A log already in the wanted kind comes out as it is, and the bytes behind it stay.
fn as_it_is(rt: &HostRuntime, sets: &[u8], lists: &[u8]) {
    let mut buf = [9u8; 356];
    let mut longer = [9u8; 182];
    print::moved(rt, moving::convert(sets, 3, &mut buf));
    print::same(rt, buf.as_slice() == sets);
    print::moved(rt, moving::convert(lists, 8, &mut longer));
    print::same(rt, first_of(&longer, 180) == lists);
    print::same(rt, longer[180] == 9 && longer[181] == 9);
}

// 28 with one byte too few, and before it 21 for a wanted kind that is no release; no byte is changed.
fn refused(rt: &HostRuntime, sets: &[u8], lists: &[u8]) {
    let mut short = [9u8; 179];
    let mut longer = [9u8; 355];
    print::moved(rt, moving::convert(sets, 8, &mut short));
    print::moved(rt, moving::convert(sets, 7, &mut short));
    print::same(rt, &short == &[9; 179]);
    print::moved(rt, moving::convert(lists, 3, &mut longer));
    print::moved(rt, moving::convert(lists, 7, &mut longer));
    print::same(rt, &longer == &[9; 355]);
}

// A log that reads badly gives its own number before both: 20 where its end is cut off, 27 where it has none or is empty; no byte is changed.
fn bad_log(rt: &HostRuntime, sets: &[u8]) {
    let mut buf = [9u8; 4];
    print::moved(rt, moving::convert(first_of(sets, 355), 7, &mut buf));
    print::moved(rt, moving::convert(first_of(sets, 348), 8, &mut buf));
    print::moved(rt, moving::convert(b"", 7, &mut buf));
    print::same(rt, &buf == b"\x09\x09\x09\x09");
}

// The session by lists, a record to a line, as the second program's `convert 8` gives it.
pub(crate) fn session_moved(rt: &HostRuntime) {
    let lists =
        b"\x1a\x00\x01\x00\x02\x03\x0a\x00\x64\x00\x00\x00\x02\x00\x1e\x00\x32\x00\x00\x00\x01\x00\x14\x00\x50\x00\x00\x00\x01\x00\
        \x05\x00\x02\x00\x00\x00\x00\x00\x00\
        \x0a\x00\x08\x00\x01\x00\x00\x00\x00\x00\x00\x01\x00\x04\
        \x05\x00\x02\x00\x02\x00\x00\x00\x01\
        \x0b\x00\x08\x00\x03\x00\x00\x00\x01\x01\x00\x01\x00\x04\x07\
        \x05\x00\x02\x00\x04\x00\x00\x00\x02\
        \x0a\x00\x08\x00\x05\x00\x00\x00\x02\x00\x00\x01\x00\x07\
        \x05\x00\x04\x00\x06\x00\x00\x00\x00\
        \x05\x00\x04\x00\x07\x00\x00\x00\x02\
        \x05\x00\x05\x00\x08\x00\x00\x00\x00\
        \x05\x00\x04\x00\x08\x00\x00\x00\x01\
        \x05\x00\x05\x00\x09\x00\x00\x00\x01\
        \x05\x00\x05\x00\x0a\x00\x00\x00\x00\
        \x05\x00\x05\x00\x0b\x00\x00\x00\x02\
        \x05\x00\x02\x00\x0c\x00\x00\x00\x01\
        \x04\x00\x06\x00\x0e\x00\x00\x00";
    let mut sets = [0u8; 356];
    session_log(&mut sets);
    there_and_back(rt, &sets, lists);
    as_it_is(rt, &sets, lists);
    refused(rt, &sets, lists);
    bad_log(rt, &sets);
}
