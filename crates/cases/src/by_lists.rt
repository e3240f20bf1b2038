// Request 6: the record of a release by lists, kind 8, written and read. Its bytes are by hand: length of the body 2, kind 2, tick 4, task 1, read count 2, write
// count 2, then the objects, reads first.
use crate::records::{first_of, read};
use crate::{event, print};
use rules::{Event, Kind};
use std::rt::HostRuntime;

fn release_of(reads: [u64; 4], writes: [u64; 4]) -> Event {
    Event {
        kind: Kind::Release,
        tick: 0x01020304,
        task: 1,
        reads,
        writes,
    }
}

// One that reads the objects 0, 4 and 255 and writes 7. Object b is bit b mod 64 of group b / 64: 0 and 4 are 1 + 16, 255 is the highest bit of the last, 7 is 128.
fn reads_three() -> Event {
    release_of([17, 0, 0, 1 << 63], [128, 0, 0, 0])
}

// Its record between bytes that stay: a body of 9 + 3 + 1 = 13 bytes.
pub(crate) fn written(rt: &HostRuntime) {
    let mut buf = [9u8; 21];
    print::wrote(
        rt,
        writing::write_event_by_lists(&mut buf, 2, reads_three()),
    );
    print::same(
        rt,
        buf.as_slice()
            == b"\x09\x09\x0d\x00\x08\x00\x04\x03\x02\x01\x01\x03\x00\x01\x00\x00\x04\xff\x07\x09\x09".as_slice(),
    );
}

// 28: the record has 17 bytes, and 16 are left; no byte is changed.
pub(crate) fn no_room(rt: &HostRuntime) {
    let mut buf = [9u8; 17];
    print::wrote(
        rt,
        writing::write_event_by_lists(&mut buf, 1, reads_three()),
    );
    print::same(rt, &buf == &[9; 17]);
    print::wrote(
        rt,
        writing::write_event_by_lists(&mut buf, 0, reads_three()),
    );
}

// The release by lists and by sets: both records read as the same event. A set's byte 0 has the objects 0 to 7, lowest bit first, so 0 and 4 are 17 and 7 is 128; 255
// is 128 in byte 31.
pub(crate) fn read_back(rt: &HostRuntime) {
    let lists = b"\x0d\x00\x08\x00\x04\x03\x02\x01\x01\x03\x00\x01\x00\x00\x04\xff\x07";
    let sets = b"\x45\x00\x03\x00\x04\x03\x02\x01\x01\
        \x11\x00\x00\x00\x00\x00\x00\x00\x00\x00\x00\x00\x00\x00\x00\x00\x00\x00\x00\x00\x00\x00\x00\x00\x00\x00\x00\x00\x00\x00\x00\x80\
        \x80\x00\x00\x00\x00\x00\x00\x00\x00\x00\x00\x00\x00\x00\x00\x00\x00\x00\x00\x00\x00\x00\x00\x00\x00\x00\x00\x00\x00\x00\x00\x00";
    read(rt, lists, 0);
    read(rt, sets, 0);
    print::same(rt, logs::event_of(8, logs::body(lists, 0)) == reads_three());
    print::same(rt, logs::event_of(3, logs::body(sets, 0)) == reads_three());
}

// All objects read and written: a body of 9 + 256 + 256 = 521 bytes, 9 and 2 in bytes; each count is 0 and 1.
pub(crate) fn all_objects(rt: &HostRuntime) {
    let e = release_of([u64::MAX; 4], [u64::MAX; 4]);
    let mut buf = [0u8; 525];
    print::wrote(rt, writing::write_event_by_lists(&mut buf, 0, e));
    read(rt, &buf, 0);
    print::same(
        rt,
        first_of(&buf, 14)
            == b"\x09\x02\x08\x00\x04\x03\x02\x01\x01\x00\x01\x00\x01\x00".as_slice(),
    );
    print::same(rt, logs::event_of(8, logs::body(&buf, 0)) == e);
}

// The lengths of a record by sets and by lists.
fn length(rt: &HostRuntime, e: Event) {
    let sets = writing::event_length(3, e);
    let lists = writing::event_length(8, e);
    let _ = println!(rt; "length {sets} {lists}");
}

// A release has 4 + 69 bytes by sets, and 4 + 9 and one for each object by lists: with none, with four, and with 256 in both. Another event has 4 + 5 either way.
pub(crate) fn lengths(rt: &HostRuntime) {
    length(rt, release_of([0; 4], [0; 4]));
    length(rt, reads_three());
    length(rt, release_of([u64::MAX; 4], [u64::MAX; 4]));
    length(rt, event(Kind::Commit, 1, 1));
}

// 22: a body of no byte, one of 8, and lengths that are not 9 plus both counts: one above, one below, and one where neither list rises. Then 20 for a body that is cut
// off, and 21 for kind 9. The last, with no object, is good.
pub(crate) fn bad_lengths(rt: &HostRuntime) {
    let records: [&[u8]; 8] = [
        b"\x00\x00\x08\x00",
        b"\x08\x00\x08\x00\x00\x00\x00\x00\x01\x00\x00\x00",
        b"\x0b\x00\x08\x00\x00\x00\x00\x00\x01\x01\x00\x00\x00\x04\x07",
        b"\x0b\x00\x08\x00\x00\x00\x00\x00\x01\x01\x00\x02\x00\x04\x07",
        b"\x0d\x00\x08\x00\x00\x00\x00\x00\x01\x02\x00\x03\x00\x04\x04\x07\x07",
        b"\x0b\x00\x08\x00\x00\x00\x00\x00\x01\x01\x00\x01\x00\x04",
        b"\x0b\x00\x09\x00\x00\x00\x00\x00\x01\x01\x00\x01\x00\x04\x07",
        b"\x09\x00\x08\x00\x00\x00\x00\x00\x01\x00\x00\x00\x00",
    ];
    for bytes in records {
        read(rt, bytes, 0);
    }
}

// 29: reads 4 4, reads 5 4, writes 7 7, writes 8 7, and reads 1 4 4. The last two are good: reads 4 7 and writes 4, and reads 255 and writes 0.
pub(crate) fn bad_lists(rt: &HostRuntime) {
    let records: [&[u8]; 7] = [
        b"\x0b\x00\x08\x00\x00\x00\x00\x00\x01\x02\x00\x00\x00\x04\x04",
        b"\x0b\x00\x08\x00\x00\x00\x00\x00\x01\x02\x00\x00\x00\x05\x04",
        b"\x0b\x00\x08\x00\x00\x00\x00\x00\x01\x00\x00\x02\x00\x07\x07",
        b"\x0b\x00\x08\x00\x00\x00\x00\x00\x01\x00\x00\x02\x00\x08\x07",
        b"\x0d\x00\x08\x00\x00\x00\x00\x00\x01\x03\x00\x01\x00\x01\x04\x04\x07",
        b"\x0c\x00\x08\x00\x00\x00\x00\x00\x01\x02\x00\x01\x00\x04\x07\x04",
        b"\x0b\x00\x08\x00\x00\x00\x00\x00\x01\x01\x00\x01\x00\xff\x00",
    ];
    for bytes in records {
        read(rt, bytes, 0);
    }
}
