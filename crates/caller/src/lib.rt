// Runs the lines of a reader, and hands what they print to a sink. Memory is constant: a block of input, a block of output, and the
// state.
#![tactic(auto)]

ghost use Rattle.std.specs.Prelude.{◌≡◌, ◌<◌, length};
ghost use Rattle.streams.specs.Reading.{reader};

use acts::act_line;
use fields::BYTES_MAX;
use rounds::round_line;
use std::fmt;
use std::io::{Read, Write};
use streams::reader::{LONGEST, Line, Reader, next_line};
use streams::sink::{NotWritten, Sink, Target, done};
use text::print::Text;
use values::values_line;
use views::view_line;
use wire::ethernet::HardwareAddress;
use world::World;

// What is printed is gathered up to here before it is handed over.
const GATHERED: usize = 49152;

// 16 KiB more than that: a line prints less.
const OUTPUT: usize = 65536;

// A block of 64 KiB, after a part of a line.
const INPUT: usize = 69632;

// Why a run ended before every line was answered.
#[derive(Clone, Copy, Debug)]
pub enum CallError {
    // a read failed
    NotRead,
    // the output was not written, or is not what it is compared with
    NotWritten,
}

impl fmt::Display for CallError {
    fn fmt<W: fmt::Write>(&self, f: &mut fmt::Formatter<W>) -> fmt::Result {
        match self {
            CallError::NotRead => write!(f, "the input could not be read"),
            CallError::NotWritten => write!(f, "the output could not be written"),
        }
    }
}

impl From<NotWritten> for CallError {
    fn from(_e: NotWritten) -> CallError {
        CallError::NotWritten
    }
}

// What goes from line to line: the state, what of the input is in hand, and what is gathered. `skips`: what comes is the rest of a line that
// is too long.
#[derive(Drop)]
struct Progress<'a> {
    world: World,
    reader: Reader,
    out: Text<'a>,
    skips: bool,
}

// A line prints its call's answer, or that it is bad.
fn answer(world: &mut World, line: &[u8], room: &mut [u8], out: &mut Text) {
    let known = values_line(line, room, out)
        || view_line(world, line, out)
        || act_line(world, line, room, out)
        || round_line(world, line, room, out);
    if !known {
        out.word(b"bad line");
    }
}

impl<'a> Progress<'a> {
    // Before the first line everything is as after `new 020000000000 0`.
    fn new(out: &'a mut [u8]) -> Progress<'a>
        ensures { result.reader ≡ reader 0 0 }
    {
        Progress {
            world: World::new(HardwareAddress { hi: 0x0200, lo: 0 }, 0),
            reader: Reader { start: 0, end: 0 },
            out: Text { buf: out, at: 0 },
            skips: false,
        }
    }

    // Hands over what is gathered, where that is much.
    fn flush<W: Write, R: Read>(
        &mut self,
        sink: &mut Sink,
        target: &mut Target<W, R>,
    ) -> Result<(), NotWritten> {
        if self.out.at >= GATHERED {
            sink.emit(target, self.out.as_bytes())?;
            self.out.clear();
        }
        Ok(())
    }

    // One line in, one line out; or the last of one that was too long and was answered already.
    fn line<W: Write, R: Read>(
        &mut self,
        sink: &mut Sink,
        target: &mut Target<W, R>,
        line: &[u8],
        room: &mut [u8],
    ) -> Result<(), NotWritten> {
        if self.skips {
            self.skips = false;
            return Ok(());
        }
        answer(&mut self.world, line, room, &mut self.out);
        self.out.byte(b'\n');
        self.flush(sink, target)
    }

    // A line that is too long, or more of it.
    fn long<W: Write, R: Read>(
        &mut self,
        sink: &mut Sink,
        target: &mut Target<W, R>,
    ) -> Result<(), NotWritten> {
        if self.skips {
            return Ok(());
        }
        self.skips = true;
        self.out.word(b"bad line\n");
        self.flush(sink, target)
    }
}

// Hands over what is gathered. Nothing may follow it.
fn finish<W: Write, R: Read>(
    sink: &mut Sink,
    target: &mut Target<W, R>,
    end: Result<(), CallError>,
    gathered: &[u8],
) -> Result<(), CallError> {
    sink.emit(target, gathered)?;
    if done(target) {
        end
    } else {
        Err(CallError::NotWritten)
    }
}

// Line by line, with a buffer for the input, one for the bytes that a line says, and one for the output.
fn run_lines<I: Read, W: Write, R: Read>(
    input: &mut I,
    target: &mut Target<W, R>,
    sink: &mut Sink,
    buf: &mut [u8],
    room: &mut [u8],
    out: &mut [u8],
) -> Result<(), CallError>
    requires { 4096 < length buf.old }
{
    let mut run = Progress::new(out);
    // More lines than there are: a loop without an end is none here.
    for _ in 0..u64::MAX {
        let Ok(line) = next_line(input, buf, run.reader) else {
            return finish(sink, target, Err(CallError::NotRead), run.out.as_bytes());
        };
        match line {
            Line::At(from, to, left) => {
                run.line(sink, target, &buf[from..to], room)?;
                run.reader = left;
            }
            Line::Long(left) => {
                run.long(sink, target)?;
                // The first bytes are known to be the line's own, and are passed over.
                run.reader = Reader {
                    start: left.start + LONGEST,
                    ..left
                };
            }
            Line::End => break,
        }
    }
    finish(sink, target, Ok(()), run.out.as_bytes())
}

// Answers the lines of input.
pub fn run<I: Read, W: Write, R: Read>(
    input: &mut I,
    target: &mut Target<W, R>,
    sink: &mut Sink,
) -> Result<(), CallError> {
    let mut buf = [0u8; INPUT];
    let mut room = [0u8; BYTES_MAX];
    let mut out = [0u8; OUTPUT];
    run_lines(input, target, sink, &mut buf, &mut room, &mut out)
}
