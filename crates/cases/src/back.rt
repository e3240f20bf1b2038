// The writers: no room, bad values, and each kind written, read and written again.
use crate::modes::in_mode;
use crate::{print, terms_of};
use rules::{Event, Kind, Setup};
use std::rt::HostRuntime;

// 28: past the buffer, at its end, and with one byte too few; no byte is changed.
pub(crate) fn no_room(rt: &HostRuntime) {
    let mut buf = [7u8; 8];
    print::wrote(rt, writing::write_end(&mut buf, 9, 0));
    print::wrote(rt, writing::write_end(&mut buf, 8, 0));
    print::wrote(rt, writing::write_end(&mut buf, 1, 0));
    print::wrote(rt, writing::write_end(&mut buf, usize::MAX, 0));
    print::same(
        rt,
        buf.as_slice() == b"\x07\x07\x07\x07\x07\x07\x07\x07".as_slice(),
    );
    print::wrote(rt, writing::write_end(&mut buf, 0, 258));
    print::same(
        rt,
        buf.as_slice() == b"\x04\x00\x06\x00\x02\x01\x00\x00".as_slice(),
    );
}

fn setup(m: u8, n: u8, priority: u16, period: u32) -> Setup {
    Setup {
        m,
        n,
        mode: 0,
        terms: [terms_of(priority, period, 3); 64],
    }
}

// 10 to 14 come before 28, and no byte is changed.
pub(crate) fn bad_setups(rt: &HostRuntime) {
    let mut buf = [7u8; 4];
    print::wrote(rt, writing::write_setup(&mut buf, 0, setup(0, 1, 1, 1)));
    print::wrote(rt, writing::write_setup(&mut buf, 0, setup(1, 65, 1, 1)));
    print::wrote(
        rt,
        writing::write_mode_setup(&mut buf, 0, in_mode(2, setup(1, 1, 0, 1))),
    );
    print::wrote(rt, writing::write_setup(&mut buf, 0, setup(1, 1, 0, 1)));
    print::wrote(rt, writing::write_setup(&mut buf, 0, setup(1, 1, 1, 0)));
    print::wrote(rt, writing::write_setup(&mut buf, 0, setup(1, 1, 1, 1)));
    print::same(rt, buf.as_slice() == b"\x07\x07\x07\x07".as_slice());
}

fn event(kind: Kind) -> Event {
    Event {
        kind,
        tick: 0x01020304,
        task: 5,
        reads: [1, 2, 4, 8],
        writes: [1 << 63, 0, 0, 256],
    }
}

// An event written, found, read and written again at the same place of another buffer.
fn event_back(rt: &HostRuntime, kind: Kind) {
    let mut buf = [0u8; 80];
    let mut again = [0u8; 80];
    print::wrote(rt, writing::write_event(&mut buf, 3, event(kind)));
    let found = logs::read(&buf, 3);
    print::found(rt, found);
    let Ok(record) = found else {
        return;
    };
    let e = logs::event_of(record.kind, logs::body(&buf, 3));
    print::wrote(rt, writing::write_event(&mut again, 3, e));
    print::same(rt, buf == again);
}

// A setup in the lowest kind that can say it, which is 1 where its mode is 0.
fn setup_back(rt: &HostRuntime, mode: u8) {
    let mut buf = [0u8; 80];
    let mut again = [0u8; 80];
    let u = in_mode(mode, setup(2, 3, 513, 86_400_000));
    print::wrote(rt, writing::write_setup(&mut buf, 1, u));
    let found = logs::read(&buf, 1);
    print::found(rt, found);
    let Ok(record) = found else {
        return;
    };
    let back = logs::setup_of(record.kind, logs::body(&buf, 1));
    print::same(rt, setup::same_setup(u, back));
    print::wrote(rt, writing::write_setup(&mut again, 1, back));
    print::same(rt, buf == again);
}

// One of mode 0 in kind 7: it is the same setup as in kind 1, and not the same in mode 1.
fn mode_setup_back(rt: &HostRuntime) {
    let mut buf = [0u8; 80];
    let u = setup(2, 3, 513, 86_400_000);
    print::wrote(rt, writing::write_mode_setup(&mut buf, 1, u));
    print::found(rt, logs::read(&buf, 1));
    let back = logs::setup_of(7, logs::body(&buf, 1));
    print::same(rt, setup::same_setup(u, back));
    print::same(rt, setup::same_setup(in_mode(1, u), back));
}

pub(crate) fn each_kind(rt: &HostRuntime) {
    setup_back(rt, 0);
    setup_back(rt, 1);
    mode_setup_back(rt);
    for kind in [Kind::Arrive, Kind::Release, Kind::Commit, Kind::Finish] {
        event_back(rt, kind);
    }
    let mut buf = [0u8; 80];
    print::wrote(rt, writing::write_end(&mut buf, 0, u32::MAX));
    print::found(rt, logs::read(&buf, 0));
    let _ = println!(rt; "count {}", logs::count_of(logs::body(&buf, 0)));
}
