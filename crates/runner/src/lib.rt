// Runs the event program: the lines of a reader are carried out one by one, and what they print goes to a sink. Memory is
// constant: a block of input, a block of output, and the state.
#![tactic(auto)]

ghost use Rattle.std.specs.Prelude.{◌≡◌, ◌<◌, ◌≤◌, length};
ghost use Rattle.text.specs.Gathered.{IsSameBuffer};
ghost use Rattle.streams.specs.Writing.{is_written};
ghost use Rattle.runner.specs.OutputRules.{failed, complete, end_of, end_text};
ghost use Rattle.runner.specs.RunRules.{begun_run, Room, AddsWhole, FlushedTo, Handed, Turned, with_next, Ends, Finished, Gone, turned_at, ended_at, RunTo, RunOf, unwritten};

use report::answer;
use script::card::Card;
use script::reading::Want;
use std::fmt;
use std::io::{Read, Write};
use streams::reader::{Line, Reader, next_line};
use streams::sink::{NotWritten, Sink, Target, done};
use text::print::Text;

// What is printed is gathered up to here before it is handed over.
const GATHERED: usize = 57344;

// 8 KiB more than that: a line prints at most 1,040 bytes, and the end of the output has at most 4,096.
const OUTPUT: usize = 65536;

// A block of 64 KiB, after a part of a line.
const INPUT: usize = 69632;

// Why a run ended before the state was listed.
#[derive(Clone, Copy, Debug)]
pub enum RunError {
    // this line is bad, or missing
    BadLine(u64),
    // a read failed
    NotRead,
    // the output was not written, or is not what it is compared with
    NotWritten,
}

impl fmt::Display for RunError {
    fn fmt<W: fmt::Write>(&self, f: &mut fmt::Formatter<W>) -> fmt::Result {
        match self {
            RunError::BadLine(number) => write!(f, "bad line {number}"),
            RunError::NotRead => write!(f, "the input could not be read"),
            RunError::NotWritten => write!(f, "the output could not be written"),
        }
    }
}

impl From<NotWritten> for RunError {
    ghost from_gives = { λ _ e. e ≡ unwritten };

    fn from(_e: NotWritten) -> RunError {
        RunError::NotWritten
    }
}

// What goes from line to line: the number of the next one and what is wanted there, and the state.
#[derive(Clone, Copy)]
struct Progress {
    number: u64,
    want: Want,
    card: Card,
}

fn is_failed(want: Want) -> bool
    ensures { result ≡ failed want }
{
    matches!(want, Want::Failed)
}

fn is_complete(want: Want) -> bool
    ensures { result ≡ complete want }
{
    matches!(want, Want::Nothing)
}

// Hands over what is gathered, where that is much.
fn flush<W: Write, R: Read>(
    sink: &mut Sink,
    target: &mut Target<W, R>,
    out: &mut Text,
) -> Result<(), NotWritten>
    requires { out.old.at ≤ length out.old.buf.now }
    ensures flushed { FlushedTo sink.old out.old result sink.new out.new }
    ensures kind { is_written target.new ≡ is_written target.old }
    ensures handed { Handed W.contents target.old out.old.at out.old.buf.now result target.new }
    ensures same_buffer { IsSameBuffer out.old out.new }
{
    if out.at >= GATHERED {
        sink.emit(target, out.as_bytes())?;
        out.clear();
    }
    Ok(())
}

// Before the first line.
fn begun() -> Progress
    ensures { result ≡ begun_run }
{
    Progress {
        number: 1,
        want: Want::Mac,
        card: Card::new(),
    }
}

// One line is carried out, and what it printed is gathered or handed over.
fn turn<W: Write, R: Read>(
    run: &mut Progress,
    sink: &mut Sink,
    target: &mut Target<W, R>,
    line: &[u8],
    out: &mut Text,
) -> Result<(), NotWritten>
    requires { Room out.old }
    ensures turned { Turned run.old sink.old line.now out.old (with_next result run.new) sink.new out.new }
    ensures kind { is_written target.new ≡ is_written target.old }
    ensures handed { Handed W.contents target.old (turned_at run.old out.old line.now) out.new.buf.now result target.new }
    ensures same_buffer { IsSameBuffer out.old out.new }
{
    let after = run.card.step(run.want, line, out);
    flush(sink, target, out)?;
    run.number = run.number.wrapping_add(1);
    run.want = after.want;
    run.card = after.card;
    Ok(())
}

// How the run ends where the reader has no line: with the state after the last event, or with a line that is missing or too
// long.
fn end_of(line: Line, want: Want, number: u64) -> Result<(), RunError>
    ensures { result ≡ end_of (Ok line) want number }
{
    match line {
        Line::End if is_complete(want) => Ok(()),
        Line::End | Line::Long(_) => Err(RunError::BadLine(number)),
        Line::At(..) => Err(RunError::NotWritten),
    }
}

// The end of the output.
fn put_end(end: Result<(), RunError>, card: Card, out: &mut Text)
    requires { Room out.old }
    ensures adds { AddsWhole (end_text end card) out.old out.new }
    ensures same_buffer { IsSameBuffer out.old out.new }
{
    match end {
        Ok(()) => card.list(out),
        Err(RunError::BadLine(number)) => answer::bad_line(out, number),
        // two arms: under one pattern for both the proof has no equation for `end`
        Err(RunError::NotRead) => {}
        Err(RunError::NotWritten) => {}
    }
}

// Hands over what is gathered. Nothing may follow it.
fn last<W: Write, R: Read>(
    sink: &mut Sink,
    target: &mut Target<W, R>,
    end: Result<(), RunError>,
    out: &Text,
) -> Result<(), RunError>
    requires { out.now.at ≤ length out.now.buf.now }
    ensures ends { Ends end out.now.at sink.old result sink.new }
    ensures kind { is_written target.new ≡ is_written target.old }
    ensures gone { Gone W.contents target.old out.now.at out.now.buf.now result target.new }
{
    sink.emit(target, out.as_bytes())?;
    if done(target) {
        end
    } else {
        Err(RunError::NotWritten)
    }
}

fn finish<W: Write, R: Read>(
    run: Progress,
    sink: &mut Sink,
    target: &mut Target<W, R>,
    end: Result<(), RunError>,
    out: &mut Text,
) -> Result<(), RunError>
    requires { Room out.old }
    ensures finished { Finished run sink.old end out.old result sink.new out.new }
    ensures kind { is_written target.new ≡ is_written target.old }
    ensures gone { Gone W.contents target.old (ended_at run out.old end) out.new.buf.now result target.new }
    ensures same_buffer { IsSameBuffer out.old out.new }
{
    put_end(end, run.card, out);
    last(sink, target, end, out)
}

// Line by line, with a buffer for the input and a text for the output.
fn run_lines<I: Read, W: Write, R: Read>(
    input: &mut I,
    target: &mut Target<W, R>,
    sink: &mut Sink,
    buf: &mut [u8],
    out: &mut Text,
) -> Result<(), RunError>
    requires { (4096 < length buf.old) × (out.old.at ≡ 0) × (65536 ≤ length out.old.buf.now) }
    ensures run { RunTo W.contents target.old buf.old sink.old result sink.new buf.new target.new }
    ensures kind { is_written target.new ≡ is_written target.old }
    ensures same_buffer { IsSameBuffer out.old out.new }
{
    let mut run = begun();
    let mut reader = Reader { start: 0, end: 0 };
    // No `for`: it ends by what a line says.
    loop {
        let Ok(line) = next_line(input, buf, reader) else {
            return finish(run, sink, target, Err(RunError::NotRead), out);
        };
        let Line::At(from, to, left) = line else {
            let end = end_of(line, run.want, run.number);
            return finish(run, sink, target, end, out);
        };
        let number = run.number;
        turn(&mut run, sink, target, &buf[from..to], out)?;
        if is_failed(run.want) {
            return finish(run, sink, target, Err(RunError::BadLine(number)), out);
        }
        reader = left;
    }
}

// Runs the events of input, and answers how that ended.
pub fn run<I: Read, W: Write, R: Read>(
    input: &mut I,
    target: &mut Target<W, R>,
    sink: &mut Sink,
) -> Result<(), RunError>
    ensures run { RunOf W.contents target.old sink.old result sink.new target.new }
    ensures kind { is_written target.new ≡ is_written target.old }
{
    let mut buf = [0u8; INPUT];
    let mut out = [0u8; OUTPUT];
    let mut text = Text {
        buf: &mut out,
        at: 0,
    };
    run_lines(input, target, sink, &mut buf, &mut text)
}
