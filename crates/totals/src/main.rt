// Totals at their largest: each total of the report brought to 4,294,967,295, and one past it, with tally and row seen unchanged.
//
// The events are those of document 01's session. At tick 7 task 2 commits, and that admits task 1, which has waited 4 ticks with 2 clashes; at tick 8 task 1
// commits. So task 2's commits grow by 1 at tick 7, task 1's clashes by 2, its ticks by 4 and its waits by 1; and at tick 8 its commits that had waited by 1.
//
// On 01's two processors task 1 never ran while it waited: just before task 0's commit at tick 6 two tasks execute, and just before task 2's at tick 7 one
// executes and one is plain. On three processors these two are fewer than m, both times, and all else goes as before; so there its retries grow by 2.
//
// A line says which total, its value after the event, the number answered, and whether tally and row are the same as before.
#![tactic(auto)]

use report::{Figures, OpenSession, Tally};
use rules::{Event, Kind, Setup, Terms};
use std::fmt;
use std::rt::HostRuntime;

// 01's setup, on m processors: priorities 10, 30, 20, periods 100, 50, 80, transactions 2, 1, 1.
fn session_setup(m: u8) -> Setup {
    let mut terms = [Terms::default(); 64];
    terms[0] = Terms {
        priority: 10,
        period: 100,
        transactions: 2,
    };
    terms[1] = Terms {
        priority: 30,
        period: 50,
        transactions: 1,
    };
    terms[2] = Terms {
        priority: 20,
        period: 80,
        transactions: 1,
    };
    Setup {
        m,
        n: 3,
        mode: 0,
        terms,
    }
}

fn event(kind: Kind, tick: u32, task: u8, reads: u64, writes: u64) -> Event {
    Event {
        kind,
        tick,
        task,
        reads: [reads, 0, 0, 0],
        writes: [writes, 0, 0, 0],
    }
}

// The event of the session at a tick from 0 to 7; the commit of task 1 at any other. Object 4 is bit 4 of the first word, object 7 bit 7.
fn event_at(tick: u32) -> Event {
    match tick {
        0 => event(Kind::Arrive, 0, 0, 0, 0),
        1 => event(Kind::Release, 1, 0, 0, 16),
        2 => event(Kind::Arrive, 2, 1, 0, 0),
        3 => event(Kind::Release, 3, 1, 16, 128),
        4 => event(Kind::Arrive, 4, 2, 0, 0),
        5 => event(Kind::Release, 5, 2, 0, 128),
        6 => event(Kind::Commit, 6, 0, 0, 0),
        7 => event(Kind::Commit, 7, 2, 0, 0),
        _ => event(Kind::Commit, 8, 1, 0, 0),
    }
}

// The totals, in the sheet's order.
#[derive(Clone, Copy, Debug, PartialEq, Eq)]
enum Total {
    Committed,
    Waited,
    Clashes,
    Retries,
    Ticks,
    Waits,
}

impl fmt::Display for Total {
    fn fmt<W: fmt::Write>(&self, f: &mut fmt::Formatter<W>) -> fmt::Result {
        f.write_str(match self {
            Total::Committed => "committed",
            Total::Waited => "waited",
            Total::Clashes => "clashes",
            Total::Retries => "retries",
            Total::Ticks => "ticks",
            Total::Waits => "waits",
        })
    }
}

fn value_of(f: Figures, which: Total) -> u32 {
    match which {
        Total::Committed => f.committed,
        Total::Waited => f.waited,
        Total::Clashes => f.clashes,
        Total::Retries => f.retries,
        Total::Ticks => f.ticks,
        Total::Waits => f.waits,
    }
}

// Figures of which one total has a value, and the others are 0.
fn figures_with(which: Total, value: u32) -> Figures {
    let mut f = Figures::default();
    match which {
        Total::Committed => f.committed = value,
        Total::Waited => f.waited = value,
        Total::Clashes => f.clashes = value,
        Total::Retries => f.retries = value,
        Total::Ticks => f.ticks = value,
        Total::Waits => f.waits = value,
    }
    f
}

// A tally and an open session.
#[derive(Clone, Copy)]
struct Place {
    tally: Tally,
    after: OpenSession,
}

// The session's events before a tick, on m processors, booked.
fn up_to(t: Tally, m: u8, tick: u32, row: &mut [u32]) -> Place {
    let x = tally::opening(t, session_setup(m));
    let mut place = Place {
        tally: x.tally,
        after: x.opened.after,
    };
    for k in 0..tick {
        let x = tally::booking(place.tally, row, place.after, event_at(k));
        place = Place {
            tally: x.tally,
            after: x.booked.after,
        };
    }
    place
}

// Books the event at a tick of the session on m processors into a tally in which one total of a task has a value.
fn try_total(rt: &HostRuntime, which: Total, task: usize, value: u32, m: u8, tick: u32) {
    let mut t = tally::empty();
    if let Some(f) = t.figures.get_mut(task) {
        *f = figures_with(which, value);
    }
    let mut row = [9u32; 8];
    let before = up_to(t, m, tick, &mut row);
    let row_before = row;
    let x = tally::booking(before.tally, &mut row, before.after, event_at(tick));
    let total = match x.tally.figures.get(task) {
        Some(f) => value_of(*f, which),
        None => 0,
    };
    let number = x.booked.number;
    let kept = if x.tally == before.tally && row == row_before {
        "same"
    } else {
        "changed"
    };
    let _ = println!(rt; "{which} {total} {number} {kept}");
}

fn main(rt: HostRuntime) {
    try_total(&rt, Total::Committed, 2, 4_294_967_294, 2, 7);
    try_total(&rt, Total::Committed, 2, 4_294_967_295, 2, 7);
    try_total(&rt, Total::Waited, 1, 4_294_967_294, 2, 8);
    try_total(&rt, Total::Waited, 1, 4_294_967_295, 2, 8);
    try_total(&rt, Total::Clashes, 1, 4_294_967_293, 2, 7);
    try_total(&rt, Total::Clashes, 1, 4_294_967_294, 2, 7);
    try_total(&rt, Total::Retries, 1, 4_294_967_293, 3, 7);
    try_total(&rt, Total::Retries, 1, 4_294_967_294, 3, 7);
    try_total(&rt, Total::Ticks, 1, 4_294_967_291, 2, 7);
    try_total(&rt, Total::Ticks, 1, 4_294_967_292, 2, 7);
    try_total(&rt, Total::Waits, 1, 4_294_967_294, 2, 7);
    try_total(&rt, Total::Waits, 1, 4_294_967_295, 2, 7);
}
