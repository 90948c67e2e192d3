// Which line is wanted next, and what a line says. No state is looked at.
ghost use Rattle.std.specs.Prelude.{◌≡◌};
ghost use Rattle.script.specs.ReadingRules.{address_want, event_want, SaidTo};

use lines::event::{Event, parse_event};
use lines::header::{address_line, counted, mac};
use wire::ethernet::HardwareAddress;
use wire::ipv6::Ipv6Cidr;

// The most bytes of a line.
pub const LINE_MAX: usize = 4096;

// Address and Event hold how many more follow that one.
#[derive(Clone, Copy)]
pub enum Want {
    Mac,
    Addresses,
    Address(u64),
    Events,
    Event(u64),
    // No line: all events have come.
    Nothing,
    // No line: a bad one has come.
    Failed,
}

// What a line says, and what is wanted after it.
#[derive(Clone, Copy)]
pub enum Said {
    Mac(HardwareAddress),
    // A count.
    Next(Want),
    // An address for the table.
    Static(Ipv6Cidr, Want),
    // An event at its time.
    Event(u64, Event, Want),
}

fn address_want(left: u64) -> Want
    ensures { result ≡ address_want left }
{
    if left == 0 {
        Want::Events
    } else {
        Want::Address(left - 1)
    }
}

fn event_want(left: u64) -> Want
    ensures { result ≡ event_want left }
{
    if left == 0 {
        Want::Nothing
    } else {
        Want::Event(left - 1)
    }
}

// Reads a line of the kind that is wanted. The message of an advertisement is read into the front of `message`.
pub fn read_line(want: Want, line: &[u8], message: &mut [u8]) -> Option<Said>
    ensures { SaidTo message.old want line.now result message.new }
{
    if line.len() > LINE_MAX {
        return None;
    }
    match want {
        Want::Mac => {
            let hardware_addr = mac(line)?;
            Some(Said::Mac(hardware_addr))
        }
        Want::Addresses => Some(Said::Next(address_want(counted(line, b"addresses")?))),
        Want::Address(left) => Some(Said::Static(address_line(line)?, address_want(left))),
        Want::Events => Some(Said::Next(event_want(counted(line, b"events")?))),
        Want::Event(left) => {
            let (time, event) = parse_event(line, message)?;
            Some(Said::Event(time, event, event_want(left)))
        }
        Want::Nothing | Want::Failed => None,
    }
}
