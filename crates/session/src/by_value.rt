// The calls by value, made of the machine: a session is laid into words, one event changes them, and the session is read back.
ghost use Rattle.std.specs.Prelude.{◌≡◌};
ghost use Rattle.rules.specs.Ranking.{by_rank};
ghost use Rattle.rules.specs.Events.{refused, arrive, release, commit, finish, step};
ghost use Rattle.rules.specs.Scan.{none};
ghost use Rattle.rules.specs.Cases.{plain_event};
ghost use Rattle.session.specs.Listed.{admission_in, admissions_in};

use machine::Admitted;
use objects::Groups;
use rules::{Admission, Admissions, Answer, Event, Kind, Refusal, Said, Session};

// How many tasks a machine holds.
const MOST_TASKS: u8 = 64;

// No admission.
fn no_admissions() -> Admissions
    ensures { result ≡ none }
{
    Admissions {
        count: 0,
        list: [Admission {
            task: 0,
            clashes: 0,
            retries: 0,
        }; 16],
    }
}

// The admissions that stand in a list, so many of them.
#[tactic(auto, using(crate::proofs::Laws::ByValue::first_none, crate::proofs::Laws::ByValue::first_more))]
fn admissions_of(list: &Admitted, count: u8) -> Admissions
    ensures { result ≡ admissions_in list.now count }
{
    let mut admitted = Admissions {
        count,
        ..no_admissions()
    };
    for (k, numbers) in list.chunks_exact(4).take(usize::from(count)).enumerate() {
        admitted.list[k] = Admission {
            task: (numbers[0] % 256) as u8,
            clashes: (numbers[1] % 4_294_967_296) as u32,
            retries: (numbers[2] % 4_294_967_296) as u32,
        };
    }
    admitted
}

// An event with no sets.
fn plain_event(kind: Kind, tick: u32, task: u8) -> Event
    ensures { result ≡ plain_event kind tick task }
{
    Event {
        kind,
        tick,
        task,
        reads: [0; 4],
        writes: [0; 4],
    }
}

// Any event. No machine holds more than 64 tasks; a session that says that it has more gets 1, and comes back as it was.
pub fn step(s: Session, e: Event) -> Answer
    ensures { result ≡ step by_rank s e }
{
    if s.n > MOST_TASKS {
        return Answer {
            said: Said::No(u8::from(Refusal::UnknownTask)),
            admitted: no_admissions(),
            session: s,
        };
    }
    let mut words = [0; 1280];
    let mut list = [0; 64];
    laid::open(&mut words, s);
    let reply = manager::step(&mut words, &mut list, e);
    Answer {
        said: reply.said,
        admitted: admissions_of(&list, reply.admitted),
        session: laid::read(&words, s),
    }
}

// An absent task's job begins: it is plain, with no release yet.
#[tactic(auto, unfolding(rules::specs::Events::step))]
pub fn arrive(s: Session, tick: u32, task: u8) -> Answer
    ensures { result ≡ arrive s tick task }
{
    step(s, plain_event(Kind::Arrive, tick, task))
}

// A plain task on a processor releases a transaction with these sets: it runs where it clashes with no executing one, and else it waits, and a scan follows.
#[tactic(auto, unfolding(rules::specs::Events::step))]
pub fn release(s: Session, tick: u32, task: u8, reads: Groups, writes: Groups) -> Answer
    ensures { result ≡ release by_rank s tick task reads writes }
{
    let e = Event {
        kind: Kind::Release,
        tick,
        task,
        reads,
        writes,
    };
    step(s, e)
}

// An executing task's transaction commits: first the counts of those that it clashes with rise, then a scan follows.
#[tactic(auto, unfolding(rules::specs::Events::step))]
pub fn commit(s: Session, tick: u32, task: u8) -> Answer
    ensures { result ≡ commit by_rank s tick task }
{
    step(s, plain_event(Kind::Commit, tick, task))
}

// A plain task on a processor is absent, and a scan follows.
#[tactic(auto, unfolding(rules::specs::Events::step))]
pub fn finish(s: Session, tick: u32, task: u8) -> Answer
    ensures { result ≡ finish by_rank s tick task }
{
    step(s, plain_event(Kind::Finish, tick, task))
}
