// The lines of a reader, read in blocks into a lent buffer.
ghost use Rattle.std.specs.Prelude.{◌≡◌, ◌+◌, ◌<◌, ◌≤◌, length};
ghost use Rattle.text.specs.Fields.{index_of};
ghost use Rattle.streams.specs.Reading.{take_line, more_of, Within, Reads, Refills, Fits, Next};

use std::io;
use std::io::Read;
use text::scan::find;

// A line's most bytes, its newline not among them.
pub const LONGEST: usize = 4096;

// What of the buffer is read and not yet used: from start up to end.
#[derive(Clone, Copy)]
pub struct Reader {
    pub start: usize,
    pub end: usize,
}

#[derive(Clone, Copy)]
pub enum Line {
    // the line's bytes are from the first place up to the second; then what is left
    At(usize, usize, Reader),
    // no line is left
    End,
    // above 4,096 bytes; then what is in hand, the line's beginning first: none of the first 4,097 bytes is a newline
    Long(Reader),
}

// A read failed, or the reader and the buffer do not fit.
#[derive(Clone, Copy, Debug)]
pub struct ReadFailed;

// How many bytes stand before the first newline, or in all.
fn line_len(bytes: &[u8]) -> usize
    ensures is { result ≡ index_of 10 bytes.now }
    ensures high { result ≤ length bytes.now }
{
    find(bytes, b'\n').unwrap_or(bytes.len())
}

// The next line of what is in hand, or None where that is a part of a line, of which more is to come. An input that has ended needs no newline
// after its last line.
fn take_line(buf: &[u8], reader: Reader, ended: bool) -> Option<Line>
    requires { Fits buf.now reader }
    ensures { result ≡ take_line ended buf.now reader }
{
    let Reader { start, end } = reader;
    let len = line_len(&buf[start..end]);
    if len > LONGEST {
        return Some(Line::Long(reader));
    }
    let to = start + len;
    if to < end {
        return Some(Line::At(start, to, Reader { start: to + 1, end }));
    }
    if !ended {
        return None;
    }
    if len == 0 {
        return Some(Line::End);
    }
    Some(Line::At(start, end, Reader { start: end, end }))
}

// What a read into `free`, which begins at place end, answered: the place after what came, or None at the end of the input.
fn more_of(got: io::Result<usize>, end: usize, free: &[u8]) -> Result<Option<usize>, ReadFailed>
    requires within { Within (length free.now) got }
    requires free_bound { end + length free.now < 18446744073709551616 }
    ensures { result ≡ more_of got end }
{
    match got {
        Err(_) => Err(ReadFailed),
        Ok(0) => Ok(None),
        Ok(came) => Ok(Some(end + came)),
    }
}

// One read, into what is free after end.
fn read_more<R: Read>(
    input: &mut R,
    buf: &mut [u8],
    end: usize,
) -> Result<Option<usize>, ReadFailed>
    requires { end ≤ length buf.old }
    ensures { Reads buf.old end result buf.new }
{
    let got = input.read(&mut buf[end..]);
    more_of(got, end, &buf[end..])
}

// One read, after what is in hand and was moved to the front.
fn refill<R: Read>(
    input: &mut R,
    buf: &mut [u8],
    reader: Reader,
) -> Result<Option<usize>, ReadFailed>
    requires { Fits buf.old reader }
    ensures { Refills buf.old reader result buf.new }
{
    buf.copy_within(reader.start..reader.end, 0);
    read_more(input, buf, reader.end - reader.start)
}

// Each turn but the last two reads at least one byte more of the line.
fn line_from<R: Read>(input: &mut R, buf: &mut [u8], first: Reader) -> Result<Line, ReadFailed>
    requires { Fits buf.old first }
    ensures { Next buf.old first result buf.new }
{
    let mut reader = first;
    let mut ended = false;
    // No `for`: it ends by what a read gives.
    loop {
        if let Some(line) = take_line(buf, reader, ended) {
            return Ok(line);
        }
        let in_hand = reader.end - reader.start;
        match refill(input, buf, reader)? {
            None => {
                reader = Reader {
                    start: 0,
                    end: in_hand,
                };
                ended = true;
            }
            Some(end) => {
                reader = Reader { start: 0, end };
            }
        }
    }
}

// The next line, without its newline, which the last line may lack.
pub fn next_line<R: Read>(input: &mut R, buf: &mut [u8], reader: Reader) -> Result<Line, ReadFailed>
    ensures { Next buf.old reader result buf.new }
{
    if reader.start > reader.end || reader.end > buf.len() || buf.len() <= LONGEST {
        return Err(ReadFailed);
    }
    line_from(input, buf, reader)
}
