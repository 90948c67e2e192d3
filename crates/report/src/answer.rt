// The lines that are printed for an event. Each begins with the event's time.
ghost use Rattle.text.specs.Gathered.{Adds, IsSameBuffer};
ghost use Rattle.report.specs.AnswerLines.{solicit_line, refused_line, off_line, bad_line, address_line, probe_line, probe_lines, event_most, Prints};

use sweep::{Events, ProbeEvent};
use table::count_of;
use text::print::Text;
use wire::ipv6::Ipv6Addr;

pub fn solicit(out: &mut Text, time: u64, message: &[u8])
    ensures adds { Adds out.old (solicit_line time message.now) out.new }
    ensures same_buffer { IsSameBuffer out.old out.new }
{
    out.number(time);
    out.word(b" solicit ");
    out.hexes(message);
    out.byte(b'\n');
}

pub fn refused(out: &mut Text, time: u64, number: u8)
    ensures adds { Adds out.old (refused_line time number) out.new }
    ensures same_buffer { IsSameBuffer out.old out.new }
{
    out.number(time);
    out.word(b" refused ");
    out.number(number as u64);
    out.byte(b'\n');
}

pub fn off(out: &mut Text, time: u64)
    ensures adds { Adds out.old (off_line time) out.new }
    ensures same_buffer { IsSameBuffer out.old out.new }
{
    out.number(time);
    out.word(b" off\n");
}

// The last line, where that line of the input is bad.
pub fn bad_line(out: &mut Text, line: u64)
    ensures adds { Adds out.old (bad_line line) out.new }
    ensures same_buffer { IsSameBuffer out.old out.new }
{
    out.word(b"bad line ");
    out.number(line);
    out.byte(b'\n');
}

// A word and an address.
fn address_line(out: &mut Text, time: u64, word: &[u8], addr: Ipv6Addr)
    ensures adds { Adds out.old (address_line time word.now addr) out.new }
    ensures same_buffer { IsSameBuffer out.old out.new }
{
    out.number(time);
    out.word(word);
    out.address(addr);
    out.byte(b'\n');
}

fn probe(out: &mut Text, time: u64, event: ProbeEvent)
    ensures adds { Adds out.old (probe_line time event) out.new }
    ensures same_buffer { IsSameBuffer out.old out.new }
{
    match event {
        ProbeEvent::Retransmit(addr) => address_line(out, time, b" retransmit ", addr),
        ProbeEvent::Failed(addr) => address_line(out, time, b" failed ", addr),
    }
}

// The events of a sweep, in order.
pub fn probes(out: &mut Text, time: u64, events: Events)
    ensures prints { Prints (probe_lines time events) event_most out.old out.new }
    ensures same_buffer { IsSameBuffer out.old out.new }
{
    let count = count_of(events.len, events.slots.len());
    for event in &events.slots[..count] {
        probe(out, time, *event);
    }
}
