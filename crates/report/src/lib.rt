// The report's values: the figures of a task, the tally, a session that is open for booking, and the answers. What happens to them is in specs/; there is no function here.
#![tactic(auto)]

use rules::{Admissions, Refusal, Said, Session, Setup};

// The figures of one task: transactions committed, how many of them had waited, and of its waits that are booked all clashes, all retries, the longest in
// ticks, the ticks of all, and how many they are.
#[derive(Clone, Copy, Debug, Default, PartialEq, Eq)]
pub struct Figures {
    pub committed: u32,
    pub waited: u32,
    pub clashes: u32,
    pub retries: u32,
    pub longest: u32,
    pub ticks: u32,
    pub waits: u32,
}

// A tally: whether a setup has been taken, that setup, and the figures of each task. Two fields and no option: `sheet_text` reads the setup of a tally that has
// taken none, and by `empty_tally` any setup may stand there.
#[derive(Clone, Copy, Debug, PartialEq, Eq)]
pub struct Tally {
    pub taken: bool,
    pub setup: Setup,
    pub figures: [Figures; 64],
}

// A session that is open for booking: the manager's session, and of each task whether the transaction that it released last had to wait.
#[derive(Clone, Copy, Debug, PartialEq, Eq)]
pub struct OpenSession {
    pub session: Session,
    pub waited: [bool; 64],
}

// The answer to the opening of a session: whether it is refused, and the open session, or what stands in its place.
#[derive(Clone, Copy, Debug, PartialEq, Eq)]
pub struct Opened {
    pub verdict: Result<(), Refusal>,
    pub after: OpenSession,
}

// The answer to an event: the number that refuses it or its booking; what the manager said and admitted; and the open session after it. A number and no refusal:
// by `book_number` it is that of what the manager said, where `Said::No` has any.
#[derive(Clone, Copy, Debug, PartialEq, Eq)]
pub struct Booked {
    pub number: u8,
    pub said: Said,
    pub admitted: Admissions,
    pub after: OpenSession,
}

// What opening a session makes of a tally, and the answer.
#[derive(Clone, Copy, Debug, PartialEq, Eq)]
pub struct WithOpened {
    pub tally: Tally,
    pub opened: Opened,
}

// What booking an event makes of a tally, and the answer.
#[derive(Clone, Copy, Debug, PartialEq, Eq)]
pub struct WithBooked {
    pub tally: Tally,
    pub booked: Booked,
}
