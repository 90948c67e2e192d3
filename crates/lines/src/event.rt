// An event's line: its time, its kind, and what goes with it.
ghost use Rattle.std.specs.Prelude.{◌≡◌};
ghost use Rattle.text.specs.Fields.{fields};
ghost use Rattle.lines.specs.EventLines.{word_of, Silent, start_of, remove_of, fill_of, RaTo, KindTo, ParsedTo};

use text::address::{read_address, read_hardware, read_message};
use text::number::read_number;
use text::scan::split;
use wire::ethernet::HardwareAddress;
use wire::ipv6::Ipv6Addr;

#[derive(Clone, Copy)]
pub enum Event {
    Up,
    Down,
    Poll,
    Sweep,
    Off,
    // The source, and how many bytes the message has.
    Ra(Ipv6Addr, usize),
    Start(Ipv6Addr),
    Fill(Ipv6Addr, HardwareAddress),
    Remove(Ipv6Addr),
}

// The kinds that are one word.
fn read_word(word: &[u8]) -> Option<Event>
    ensures { (result ≡ word_of word.now) × Silent result }
{
    match word {
        b"up" => Some(Event::Up),
        b"down" => Some(Event::Down),
        b"poll" => Some(Event::Poll),
        b"sweep" => Some(Event::Sweep),
        b"off" => Some(Event::Off),
        _ => None,
    }
}

#[tactic(auto, using(crate::proofs::LineLaws::last_address))]
fn read_start(rest: &[u8]) -> Option<Event>
    ensures { (result ≡ start_of (fields rest.now)) × Silent result }
{
    Some(Event::Start(read_address(rest)?))
}

#[tactic(auto, using(crate::proofs::LineLaws::last_address))]
fn read_remove(rest: &[u8]) -> Option<Event>
    ensures { (result ≡ remove_of (fields rest.now)) × Silent result }
{
    Some(Event::Remove(read_address(rest)?))
}

#[tactic(auto, using(crate::proofs::LineLaws::fill_one, crate::proofs::LineLaws::last_hardware))]
fn read_fill(rest: &[u8]) -> Option<Event>
    ensures { (result ≡ fill_of (fields rest.now)) × Silent result }
{
    let (addr, hardware_addr) = split(rest)?;
    Some(Event::Fill(read_address(addr)?, read_hardware(hardware_addr)?))
}

fn read_ra(rest: &[u8], message: &mut [u8]) -> Option<Event>
    ensures { RaTo rest.now message.old result message.new }
{
    let (addr, bytes) = split(rest)?;
    let source = read_address(addr)?;
    let len = read_message(bytes, message)?;
    Some(Event::Ra(source, len))
}

// What follows the time.
fn read_event(rest: &[u8], message: &mut [u8]) -> Option<Event>
    ensures { KindTo rest.now message.old result message.new }
{
    let Some((word, fields)) = split(rest) else {
        return read_word(rest);
    };
    // No `match`: the goals of its arms did not close.
    if word == b"ra".as_slice() {
        read_ra(fields, message)
    } else if word == b"start".as_slice() {
        read_start(fields)
    } else if word == b"fill".as_slice() {
        read_fill(fields)
    } else if word == b"remove".as_slice() {
        read_remove(fields)
    } else {
        None
    }
}

// A whole line: its time and its event. The bytes of an advertisement are read into the front of message.
pub fn parse_event(line: &[u8], message: &mut [u8]) -> Option<(u64, Event)>
    ensures { ParsedTo line.now message.old result message.new }
{
    let (time, rest) = split(line)?;
    let time = read_number(time)?;
    let event = read_event(rest, message)?;
    Some((time, event))
}
