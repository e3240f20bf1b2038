// The values that the rules speak of. What happens to them is in specs/; the one function here gives a refusal its number.
#![tactic(auto)]

ghost use Rattle.std.specs.Prelude.{◌≡◌};
ghost use Rattle.rules.specs.Refusals.{refusal_number};

use std::fmt;

// Why a setup, an event, a record or a booking is refused. Each has its number, by which the lines, the answers and the log's readers name it.
#[derive(Clone, Copy, Debug, PartialEq, Eq)]
pub enum Refusal {
    // The task is not below n.
    UnknownTask = 1,
    // The tick lies before that of the last accepted event.
    EarlierTick = 2,
    // 1,000,000 events are accepted already.
    TooManyEvents = 3,
    // The task is not in the state that the event asks for.
    WrongState = 4,
    // Less than one period has passed since the last arrival.
    EarlyArrival = 5,
    // A plain task that is on no processor.
    NoProcessor = 6,
    // The job has used its transactions.
    NoReleaseLeft = 7,
    // Of a setup: m, n, a priority of 0, a period and the mode that are not allowed.
    BadProcessors = 10,
    BadTasks = 11,
    BadPriority = 12,
    BadPeriod = 13,
    BadMode = 14,
    // The record is cut off, in its head or in its body.
    CutOff = 20,
    UnknownKind = 21,
    WrongLength = 22,
    SpareUsed = 23,
    // The record has no place there in a log.
    OutOfPlace = 24,
    // The end's count is not that of the event records, or there are too many of them.
    WrongCount = 25,
    BytesAfterEnd = 26,
    // The input ends where a record would begin.
    NoBytes = 27,
    NoRoom = 28,
    // The list of a set does not rise.
    NotRising = 29,
    // The session's setup is not the one that was taken before.
    OtherSetup = 40,
    // A total would pass the largest number that is held.
    TotalPasses = 41,
}

impl From<Refusal> for u8 {
    ghost from_gives = { λ refusal number. number ≡ refusal_number refusal };

    fn from(refusal: Refusal) -> u8 {
        refusal as u8
    }
}

// A refusal is printed as its number.
impl fmt::Display for Refusal {
    fn fmt<W: fmt::Write>(&self, f: &mut fmt::Formatter<W>) -> fmt::Result {
        write!(f, "{}", u8::from(*self))
    }
}

// What a setup says of one task. Priority: larger is higher. Period: in ticks. Transactions: how many one job may release.
#[derive(Clone, Copy, Debug, Default, PartialEq, Eq)]
pub struct Terms {
    pub priority: u16,
    pub period: u32,
    pub transactions: u8,
}

// A setup: m processors, n tasks, the mode, and the terms of each task below n. Mode 0 ranks by fixed priority, mode 1 by deadline. What stands past n means nothing.
// n is no length of the table and the mode no enum, since a setup with any of them is taken: `setup_number` has 11 and 14 for those that are not allowed.
#[derive(Clone, Copy, Debug, PartialEq, Eq)]
pub struct Setup {
    pub m: u8,
    pub n: u8,
    pub mode: u8,
    pub terms: [Terms; 64],
}

// A wait: the tick of its release, how many clashing transactions have committed since, and at how many of those commits it ran, just before, on a processor.
#[derive(Clone, Copy, Debug, Default, PartialEq, Eq)]
pub struct Wait {
    pub release: u32,
    pub clashes: u32,
    pub retries: u32,
}

// A task is in exactly one of these.
#[derive(Clone, Copy, Debug, PartialEq, Eq)]
pub enum State {
    Absent,
    Plain,
    Waiting(Wait),
    Executing,
}

// A task: its terms, its state, the tick of its last arrival, if any, the releases accepted in its present job, and what that job ranks by, smaller is higher. Both are 0 while it is absent.
#[derive(Clone, Copy, Debug, PartialEq, Eq)]
pub struct Task {
    pub terms: Terms,
    pub state: State,
    pub arrival: Option<u32>,
    pub releases: u8,
    pub rank: u64,
}

// A session. Group g of task i's read set is reads[i * 4 + g], and so for its write set: one row of words each, and no array of arrays, since the definitions `sets_at` and
// `with_groups` speak of such a row.
#[derive(Clone, Copy, Debug, PartialEq, Eq)]
pub struct Session {
    pub m: u8,
    pub n: u8,
    pub mode: u8,
    pub tick: u32,
    pub accepted: u32,
    pub tasks: [Task; 64],
    pub reads: [u64; 256],
    pub writes: [u64; 256],
}

// The four events.
#[derive(Clone, Copy, Debug, PartialEq, Eq)]
pub enum Kind {
    Arrive,
    Release,
    Commit,
    Finish,
}

// An event. The two sets count for a release only.
#[derive(Clone, Copy, Debug, PartialEq, Eq)]
pub struct Event {
    pub kind: Kind,
    pub tick: u32,
    pub task: u8,
    pub reads: [u64; 4],
    pub writes: [u64; 4],
}

// What is said of a setup or an event: accepted; a release that runs; one that waits, with the lowest contested object, how many are contested, and
// whom it waits for, the highest ranked executing task that it clashes with; refused, with the number. That is a number and no `Refusal`, since text::event_line and
// answer_lines and tally::commits, releases and is_wait take one with any number.
#[derive(Clone, Copy, Debug, PartialEq, Eq)]
pub enum Said {
    Ok,
    Run,
    Wait {
        object: u8,
        contested: u16,
        whom: u8,
    },
    No(u8),
}

// A task that a scan admitted, with its clash count and its retry count.
#[derive(Clone, Copy, Debug, Default, PartialEq, Eq)]
pub struct Admission {
    pub task: u8,
    pub clashes: u32,
    pub retries: u32,
}

// The admissions of one scan, in their order: an array and a count, since memory is fixed. The places from count on are 0, by the theorem StepSixteen, so that
// equal answers are equal values.
#[derive(Clone, Copy, Debug, PartialEq, Eq)]
pub struct Admissions {
    pub count: u8,
    pub list: [Admission; 16],
}

// The answer to an event, with the session after it.
#[derive(Clone, Copy, Debug, PartialEq, Eq)]
pub struct Answer {
    pub said: Said,
    pub admitted: Admissions,
    pub session: Session,
}

// The answer to a setup, with the session that it gives or that stands in its place: no `Result`, since there is a session on a refusal too, of which the theorem
// RefusedStart speaks.
#[derive(Clone, Copy, Debug, PartialEq, Eq)]
pub struct Started {
    pub said: Said,
    pub session: Session,
}
