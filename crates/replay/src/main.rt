// Runs each recorded case of the event program, 1.in, 2.in, .., and holds its output to 1.out, 2.out, ..; and each of the calls, 1.calls, ..,
// which it holds to 1.answers, .. Then two of each against answers that are wrong, which shows that a difference is seen.
#![tactic(auto)]

use runner::RunError;
use std::fs::File;
use std::io;
use std::io::Read;
use std::rt::Files;
use streams::sink::{Sink, Target};
use text::print::Text;

// More cases than there are.
const MOST: u64 = 100000;

// Cases that are held to wrong answers too: one whose output is a few lines, and one of several blocks.
const SHORT: u64 = 1;

const LONG: u64 = 605;

const LONG_CALLS: u64 = 381;

// Which program's cases.
#[derive(Clone, Copy)]
pub enum Kind {
    Events,
    Calls,
}

#[derive(Clone, Copy)]
pub enum Case {
    Same,
    Differs,
    // there is no such case
    Missing,
    // nothing is recorded to hold its output to
    NoAnswer,
}

// Opens the file of a case whose name ends in suffix.
fn open_case<R: Files>(rt: &R, number: u64, suffix: &str) -> Option<R::File> {
    let mut room = [0u8; 32];
    let mut path = Text {
        buf: &mut room,
        at: 0,
    };
    path.number(number);
    path.word(suffix.as_bytes());
    let name = str::from_utf8(path.as_bytes()).ok()?;
    File::open(rt, name).ok()
}

// The same code as the event program's, with its output compared as it comes: whether it is the same.
fn same_events<F: Read + Drop>(from: &mut F, held: F) -> bool {
    let mut target: Target<io::Sink, F> = Target::Compare(held);
    let mut sink = Sink::new();
    let end = runner::run(from, &mut target, &mut sink);
    matches!(end, Ok(()) | Err(RunError::BadLine(_)))
}

// And as that of the calls.
fn same_calls<F: Read + Drop>(from: &mut F, held: F) -> bool {
    let mut target: Target<io::Sink, F> = Target::Compare(held);
    let mut sink = Sink::new();
    caller::run(from, &mut target, &mut sink).is_ok()
}

fn open_input<R: Files>(rt: &R, kind: Kind, number: u64) -> Option<R::File> {
    match kind {
        Kind::Events => open_case(rt, number, ".in"),
        Kind::Calls => open_case(rt, number, ".calls"),
    }
}

fn same<F: Read + Drop>(kind: Kind, from: &mut F, held: F) -> bool {
    match kind {
        Kind::Events => same_events(from, held),
        Kind::Calls => same_calls(from, held),
    }
}

// One case, held to the file whose name ends in suffix.
fn one_case<R: Files>(rt: &R, kind: Kind, number: u64, suffix: &str) -> Case {
    let Some(mut from) = open_input(rt, kind, number) else {
        return Case::Missing;
    };
    let Some(held) = open_case(rt, number, suffix) else {
        return Case::NoAnswer;
    };
    if same(kind, &mut from, held) {
        Case::Same
    } else {
        Case::Differs
    }
}

fn recorded(rt: &(impl Files + Print), kind: Kind, suffix: &str, what: &str) -> io::Result<()> {
    let mut cases: u64 = 0;
    let mut same: u64 = 0;
    for number in 1..=MOST {
        match one_case(rt, kind, number, suffix) {
            Case::Same => same = same.wrapping_add(1),
            Case::Differs => println!(rt; "differs: {number}")?,
            Case::NoAnswer => println!(rt; "no answer: {number}")?,
            Case::Missing => break,
        }
        cases = number;
    }
    println!(rt; "{same} of {cases} {what}")
}

// Cases, each held to the file whose name ends in the text beside its number, which has a wrong answer.
fn wrong(
    rt: &(impl Files + Print),
    kind: Kind,
    cases: &[(u64, &str)],
    what: &str,
) -> io::Result<()> {
    let mut told: u64 = 0;
    for (number, suffix) in cases {
        if matches!(one_case(rt, kind, *number, suffix), Case::Differs) {
            told = told.wrapping_add(1);
        }
    }
    println!(rt; "{told} of {} {what} told apart", cases.len())
}

// A byte of the answer is changed; its last byte is missing; it has one more. And, of a long answer, a byte that is compared before the
// last block.
const WRONG_EVENTS: [(u64, &str); 4] = [
    (SHORT, ".changed"),
    (SHORT, ".short"),
    (SHORT, ".long"),
    (LONG, ".changed"),
];

const WRONG_CALLS: [(u64, &str); 4] = [
    (SHORT, ".answers-changed"),
    (SHORT, ".answers-short"),
    (SHORT, ".answers-long"),
    (LONG_CALLS, ".answers-changed"),
];

fn main(rt: HostRuntime) -> io::Result<()> {
    recorded(&rt, Kind::Events, ".out", "the same")?;
    wrong(&rt, Kind::Events, &WRONG_EVENTS, "wrong answers")?;
    recorded(&rt, Kind::Calls, ".answers", "call files the same")?;
    wrong(&rt, Kind::Calls, &WRONG_CALLS, "wrong answers to calls")
}
