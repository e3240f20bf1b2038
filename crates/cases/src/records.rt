// The log by its smallest bytes: each refusal from 20 to 27, and each place of a record in a log.
use crate::print;
use logs::{Cursor, Reading, Whole};
use std::rt::HostRuntime;

// The first so many bytes, or all where there are fewer.
pub(crate) fn first_of(bytes: &[u8], many: usize) -> &[u8] {
    &bytes[..many.min(bytes.len())]
}

// The number of the record at a place.
pub(crate) fn read(rt: &HostRuntime, bytes: &[u8], at: usize) {
    print::found(rt, logs::read(bytes, at));
}

// The number of a whole log, and how many events were read.
pub(crate) fn whole(rt: &HostRuntime, bytes: &[u8]) {
    let Whole {
        verdict,
        events,
        ..
    } = logs::read_whole(bytes);
    let _ = match verdict {
        Ok(()) => println!(rt; "log 0 {events}"),
        Err(refusal) => println!(rt; "log {refusal} {events}"),
    };
}

// One record, tried in order: 27, 20, 21, 20, 22, 23, 10 to 14.
pub(crate) fn records(rt: &HostRuntime) {
    let records: [(&[u8], usize); 23] = [
        (b"", 0),
        (b"\x04\x00\x06\x00\x00\x00\x00\x00", 8),
        (b"\x04\x00\x06\x00\x00\x00\x00\x00", usize::MAX),
        (b"\x00", 0),
        (b"\x00\x00\x02", 0),
        (b"\x00\x00\x00\x00", 0),
        (b"\x00\x00\x09\x00", 0),
        (b"\xff\xff\xff\xff", 0),
        (b"\x05\x00\x02\x00", 0),
        (b"\x05\x00\x02\x00\x00\x00\x00\x00", 0),
        (b"\x00\x00\x02\x00", 0),
        (b"\x05\x00\x03\x00\x00\x00\x00\x00\x00", 0),
        (b"\x00\x00\x01\x00", 0),
        (b"\x01\x00\x01\x00\x01", 0),
        (b"\x02\x00\x01\x00\x01\x01", 0),
        (
            b"\x0a\x00\x01\x00\x01\x01\x01\x00\x01\x00\x00\x00\x01\x01",
            0,
        ),
        (b"\x02\x00\x01\x00\x00\x00", 0),
        (b"\x02\x00\x01\x00\x01\x00", 0),
        (
            b"\x0a\x00\x01\x00\x01\x01\x00\x00\x01\x00\x00\x00\x01\x00",
            0,
        ),
        (
            b"\x0a\x00\x01\x00\x01\x01\x01\x00\x00\x00\x00\x00\x01\x00",
            0,
        ),
        (
            b"\x0a\x00\x01\x00\x01\x01\x01\x00\x01\x00\x00\x00\x01\x00",
            0,
        ),
        (b"\x05\x00\x04\x00\x07\x00\x00\x00\x03", 0),
        (b"\x04\x00\x06\x00\x02\x00\x00\x00", 0),
    ];
    for (bytes, at) in records {
        read(rt, bytes, at);
    }
}

// One of kind 7: under 3 bytes, of length 2 + 8n, with a spare byte beside mode 2, with no task and mode 2, with mode 2 beside priority 0, and a good one.
pub(crate) fn mode_records(rt: &HostRuntime) {
    let records: [(&[u8], usize); 6] = [
        (b"\x02\x00\x07\x00\x01\x00", 0),
        (
            b"\x0a\x00\x07\x00\x01\x01\x01\x01\x00\x01\x00\x00\x00\x01",
            0,
        ),
        (
            b"\x0b\x00\x07\x00\x01\x01\x02\x01\x00\x01\x00\x00\x00\x01\x01",
            0,
        ),
        (b"\x03\x00\x07\x00\x01\x00\x02", 0),
        (
            b"\x0b\x00\x07\x00\x01\x01\x02\x00\x00\x01\x00\x00\x00\x01\x00",
            0,
        ),
        (
            b"\x0b\x00\x07\x00\x01\x01\x01\x01\x00\x01\x00\x00\x00\x01\x00",
            0,
        ),
    ];
    for (bytes, at) in records {
        read(rt, bytes, at);
    }
}

// Whole logs: 27, 24, 24, 25, 26, and two good ones.
pub(crate) fn logs(rt: &HostRuntime) {
    let logs: [&[u8]; 8] = [
        b"",
        b"\x0a\x00\x01\x00\x01\x01\x01\x00\x01\x00\x00\x00\x01\x00",
        b"\x04\x00\x06\x00\x00\x00\x00\x00",
        b"\x0a\x00\x01\x00\x01\x01\x01\x00\x01\x00\x00\x00\x01\x00\x0a\x00\x01\x00\x01\x01\x01\x00\x01\x00\x00\x00\x01\x00",
        b"\x0a\x00\x01\x00\x01\x01\x01\x00\x01\x00\x00\x00\x01\x00\x04\x00\x06\x00\x01\x00\x00\x00",
        b"\x0a\x00\x01\x00\x01\x01\x01\x00\x01\x00\x00\x00\x01\x00\x04\x00\x06\x00\x00\x00\x00\x00\x00",
        b"\x0a\x00\x01\x00\x01\x01\x01\x00\x01\x00\x00\x00\x01\x00\x04\x00\x06\x00\x00\x00\x00\x00",
        b"\x0a\x00\x01\x00\x01\x01\x01\x00\x01\x00\x00\x00\x01\x00\x05\x00\x02\x00\x00\x00\x00\x00\x00\x04\x00\x06\x00\x01\x00\x00\x00",
    ];
    for bytes in logs {
        whole(rt, bytes);
    }
}

// An event after the 4,294,967,295th, which no test could reach by reading.
pub(crate) fn full_log(rt: &HostRuntime) {
    for events in [u32::MAX, u32::MAX - 1] {
        let place = Cursor {
            at: 0,
            reading: Reading {
                started: true,
                release: 0,
                events,
            },
        };
        let record = b"\x05\x00\x02\x00\x00\x00\x00\x00\x00";
        print::step(rt, logs::next_step(record, place));
    }
}
