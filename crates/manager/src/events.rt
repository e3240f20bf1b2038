// The four events. Each tries its numbers in order, and the first that is given is the answer, with nothing changed; else the words move.
ghost use Rattle.std.specs.Prelude.{◌≡◌, []};
ghost use Rattle.rules.specs.declared.Said.TheVariants.{No};
ghost use Rattle.rules.specs.Refusals.{refusal_number};
ghost use Rattle.machine.specs.Events.{arrive_in, release_in, commit_in, finish_in, step_in, saying};

use crate::change::{begin, end_job, end_transaction, run, take_release, wait};
use crate::checks::{check_arrive, check_commit, check_finish, check_release};
use crate::row::scan;
use machine::{Admitted, Reply, Words};
use objects::Groups;
use placing::put_sets;
use rules::{Event, Kind, Refusal, Said};
use seek::{blocked, wait_said};

// The answer to a refused event, which lists nothing.
fn refused(refusal: Refusal) -> Reply
    ensures { result ≡ (record { said = No (refusal_number refusal); admitted = 0 }) }
{
    Reply {
        said: Said::No(u8::from(refusal)),
        admitted: 0,
    }
}

// An absent task's job begins: it is plain, with no release yet. There is no scan, and nothing is listed.
#[tactic(auto, using(crate::proofs::Laws::Events::arriving))]
pub fn arrive(words: &mut Words, tick: u32, task: u8) -> Said
    ensures says { result ≡ (arrive_in words.old [] tick task).said }
    ensures leaves { words.new ≡ (arrive_in words.old [] tick task).words }
{
    if let Err(refusal) = check_arrive(words, tick, task) {
        return Said::No(u8::from(refusal));
    }
    begin(words, tick, usize::from(task));
    Said::Ok
}

// A plain task on a processor releases a transaction with these sets: it runs where it clashes with no executing one, and else it waits, and a scan follows.
#[tactic(auto, using(crate::proofs::Laws::Events::releasing))]
pub fn release(
    words: &mut Words,
    list: &mut Admitted,
    tick: u32,
    task: u8,
    reads: Groups,
    writes: Groups,
) -> Reply
    ensures says { result ≡ saying (release_in words.old list.old tick task reads writes) }
    ensures leaves { words.new ≡ (release_in words.old list.old tick task reads writes).words }
    ensures lists { list.new ≡ (release_in words.old list.old tick task reads writes).list }
{
    if let Err(refusal) = check_release(words, tick, task) {
        return refused(refusal);
    }
    let i = usize::from(task);
    take_release(words, tick, i);
    put_sets(words, u64::from(task), reads, writes);
    if !blocked(words, u64::from(task)) {
        run(words, i);
        return Reply {
            said: Said::Run,
            admitted: 0,
        };
    }
    let said = wait_said(words, u64::from(task));
    wait(words, tick, i);
    Reply {
        said,
        admitted: scan(words, list),
    }
}

// An executing task's transaction commits: first the counts of those that it clashes with rise, then a scan follows.
#[tactic(auto, using(crate::proofs::Laws::Events::committing))]
pub fn commit(words: &mut Words, list: &mut Admitted, tick: u32, task: u8) -> Reply
    ensures says { result ≡ saying (commit_in words.old list.old tick task) }
    ensures leaves { words.new ≡ (commit_in words.old list.old tick task).words }
    ensures lists { list.new ≡ (commit_in words.old list.old tick task).list }
{
    if let Err(refusal) = check_commit(words, tick, task) {
        return refused(refusal);
    }
    end_transaction(words, tick, usize::from(task));
    Reply {
        said: Said::Ok,
        admitted: scan(words, list),
    }
}

// A plain task on a processor is absent, and a scan follows. It stands beside commit, which it resembles: a function that took what is tried and what is changed as closures
// would say their contracts again.
#[tactic(auto, using(crate::proofs::Laws::Events::finishing))]
pub fn finish(words: &mut Words, list: &mut Admitted, tick: u32, task: u8) -> Reply
    ensures says { result ≡ saying (finish_in words.old list.old tick task) }
    ensures leaves { words.new ≡ (finish_in words.old list.old tick task).words }
    ensures lists { list.new ≡ (finish_in words.old list.old tick task).list }
{
    if let Err(refusal) = check_finish(words, tick, task) {
        return refused(refusal);
    }
    end_job(words, tick, usize::from(task));
    Reply {
        said: Said::Ok,
        admitted: scan(words, list),
    }
}

// Any event.
#[tactic(auto, using(crate::proofs::Laws::Events::stepping))]
pub fn step(words: &mut Words, list: &mut Admitted, e: Event) -> Reply
    ensures says { result ≡ saying (step_in words.old list.old e) }
    ensures leaves { words.new ≡ (step_in words.old list.old e).words }
    ensures lists { list.new ≡ (step_in words.old list.old e).list }
{
    match e.kind {
        Kind::Arrive => Reply {
            said: arrive(words, e.tick, e.task),
            admitted: 0,
        },
        Kind::Release => release(words, list, e.tick, e.task, e.reads, e.writes),
        Kind::Commit => commit(words, list, e.tick, e.task),
        Kind::Finish => finish(words, list, e.tick, e.task),
    }
}
