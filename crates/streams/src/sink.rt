// Where output goes, and how much of it went there.
ghost use Rattle.std.specs.Prelude.{◌≡◌, length, true, OnOk};
ghost use Rattle.streams.specs.Writing.{fresh, counted_by, is_written, Done, Wrote};

use std::io::{Read, Write};

// What is compared at a time.
const BLOCK: usize = 65536;

// Output is written to a writer, or held to what a reader has.
#[derive(Drop)]
pub enum Target<W, R> {
    Write(W),
    Compare(R),
}

// The bytes were not written, or are not the same.
#[derive(Clone, Copy, Debug)]
pub struct NotWritten;

// The field is its own, so that nobody else can count for it.
#[derive(Clone, Copy)]
pub struct Sink {
    // how many bytes were handed over and went well, modulo 2^64
    handed: u64,
}

impl Sink {
    pub fn new() -> Sink
        ensures { result ≡ fresh }
    {
        Sink { handed: 0 }
    }

    // Hands the bytes over, and counts them if that went well: a caller that passes over the error has the count against it.
    pub fn emit<W: Write, R: Read>(
        &mut self,
        target: &mut Target<W, R>,
        bytes: &[u8],
    ) -> Result<(), NotWritten>
        ensures counted { self.new ≡ counted_by result (length bytes.now) self.old }
        ensures kind { is_written target.new ≡ is_written target.old }
        ensures written { OnOk result (Wrote W.contents target.old target.new bytes.now) }
    {
        hand_over(target, bytes)?;
        self.handed = self.handed.wrapping_add(bytes.len() as u64);
        Ok(())
    }
}

// Whether the next bytes of held are these.
fn compare<R: Read>(held: &mut R, bytes: &[u8]) -> Result<(), NotWritten> {
    let mut room = [0u8; BLOCK];
    for block in bytes.chunks(BLOCK) {
        let came = &mut room[..block.len()];
        held.read_exact(came).map_err(|_| NotWritten)?;
        if &*came != block {
            return Err(NotWritten);
        }
    }
    Ok(())
}

// Writes all the bytes, or reads as many and compares.
fn hand_over<W: Write, R: Read>(target: &mut Target<W, R>, bytes: &[u8]) -> Result<(), NotWritten>
    ensures kind { is_written target.new ≡ is_written target.old }
    ensures written { OnOk result (Wrote W.contents target.old target.new bytes.now) }
{
    match target {
        Target::Write(output) => output.write_all(bytes).map_err(|_| NotWritten),
        Target::Compare(held) => compare(held, bytes),
    }
}

fn at_end<R: Read>(held: &mut R) -> bool {
    let mut one = [0u8; 1];
    matches!(held.read(&mut one), Ok(0))
}

// After the last output: whether what it is compared with ends there too.
pub fn done<W: Write, R: Read>(target: &mut Target<W, R>) -> bool
    ensures told { Done target.old result }
    ensures kind { is_written target.new ≡ is_written target.old }
    ensures unchanged { is_written target.old ≡ true → target.new ≡ target.old }
{
    match target {
        Target::Write(_) => true,
        Target::Compare(held) => at_end(held),
    }
}
