// What was answered, on standard output: the lines of document 01 as the crate text writes them, and what the log's functions say.
use logs::{Record, Step};
use rules::{Admission, Answer, Event, Refusal, Said, Setup};
use std::io::Print;
use std::rt::HostRuntime;

// The lines that were put at the start of a buffer, up to this end.
fn show(rt: &HostRuntime, lines: &[u8], end: Option<usize>) {
    if let Some(end) = end {
        let _ = rt.write_all(&lines[..end.min(lines.len())]);
    }
}

pub(crate) fn setup_line(rt: &HostRuntime, u: Setup) {
    let mut lines = [0u8; 1024];
    let end = text::setup_line(&mut lines, 0, u.m, u.n);
    show(rt, &lines, end);
}

fn event_line(rt: &HostRuntime, e: Event, said: Said) {
    let mut lines = [0u8; 1024];
    let end = text::event_line(&mut lines, 0, e.tick, e.kind, e.task, said);
    show(rt, &lines, end);
}

fn admit_line(rt: &HostRuntime, tick: u32, a: Admission) {
    let mut lines = [0u8; 1024];
    let end = text::admit_line(&mut lines, 0, tick, a.task, a.clashes, a.retries);
    show(rt, &lines, end);
}

// The line of an event, and those of its admissions.
pub(crate) fn answer_lines(rt: &HostRuntime, e: Event, answer: Answer) {
    event_line(rt, e, answer.said);
    let admitted = answer.admitted;
    for a in admitted.list.iter().take(usize::from(admitted.count)) {
        admit_line(rt, e.tick, *a);
    }
}

pub(crate) fn end_line(rt: &HostRuntime, accepted: u32, refused: u32) {
    let mut lines = [0u8; 1024];
    let end = text::end_line(&mut lines, 0, accepted, refused);
    show(rt, &lines, end);
}

// The line of a setup that is refused.
pub(crate) fn bad_line(rt: &HostRuntime, said: Said) {
    if let Said::No(number) = said {
        let mut lines = [0u8; 1024];
        let end = text::bad_line(&mut lines, 0, number);
        show(rt, &lines, end);
    }
}

// The number of a sum, and the sum, 0 where it is refused.
pub(crate) fn sum_line(rt: &HostRuntime, sum: Result<u64, Refusal>) {
    let _ = match sum {
        Ok(sum) => println!(rt; "sum 0 {sum}"),
        Err(refusal) => println!(rt; "sum {refusal} 0"),
    };
}

pub(crate) fn found(rt: &HostRuntime, found: Result<Record, Refusal>) {
    let _ = match found {
        Ok(Record { kind, start, next }) => println!(rt; "record {kind} {start} {next}"),
        Err(refusal) => println!(rt; "no {refusal}"),
    };
}

pub(crate) fn step(rt: &HostRuntime, step: Result<Step, Refusal>) {
    let _ = match step {
        Ok(Step::Setup { .. }) => println!(rt; "setup"),
        Ok(Step::Event { next, .. }) => println!(rt; "event {}", next.reading.events),
        Ok(Step::End(_)) => println!(rt; "end"),
        Err(refusal) => println!(rt; "no {refusal}"),
    };
}

pub(crate) fn wrote(rt: &HostRuntime, wrote: Result<usize, Refusal>) {
    let _ = match wrote {
        Ok(next) => println!(rt; "next {next}"),
        Err(refusal) => println!(rt; "no {refusal}"),
    };
}

// The number of a log that was moved, and how many bytes were written, 0 where it is refused.
pub(crate) fn moved(rt: &HostRuntime, size: Result<usize, Refusal>) {
    let _ = match size {
        Ok(size) => println!(rt; "moved 0 {size}"),
        Err(refusal) => println!(rt; "moved {refusal} 0"),
    };
}

pub(crate) fn same(rt: &HostRuntime, same: bool) {
    let _ = println!(rt; "{}", if same { "same" } else { "changed" });
}
