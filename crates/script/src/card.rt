// The state that the events act on: an interface with its tables, and the neighbours.
ghost use Rattle.std.specs.Prelude.{◌≡◌, length};
ghost use Rattle.text.specs.Gathered.{IsSameBuffer};
ghost use Rattle.script.specs.CardRules.{new_card, CarriedTo, up_card, poll_card, ra_card, off_card, carry_out, message_for, Fits, Lists};
ghost use Rattle.script.specs.StepRules.{added_card, Applied, apply_of, FitsSaid, message_in, Stepped, StepTo};

use crate::neighbors::IFACE;
use crate::reading::{LINE_MAX, Said, Want, read_line};
use crate::{neighbors, printed};
use iface::addr::IfaceAddrs;
use iface::route::Routes;
use lines::event::Event;
use neighbor::NeighborCache;
use pending::PendingQueue;
use report::listing;
use slaac::Slaac;
use text::print::Text;
use time::{Clock, Instant};
use wire::ethernet::HardwareAddress;
use wire::ipv6::{Ipv6Addr, Ipv6Cidr};

// A router solicitation with a source link-layer option.
const SOLICIT_LEN: usize = 16;

// Two digits of a line make a byte of a message.
const MESSAGE_ROOM: usize = LINE_MAX / 2;

#[derive(Clone, Copy)]
pub struct Card {
    pub slaac: Slaac,
    pub addrs: IfaceAddrs,
    pub routes: Routes,
    pub cache: NeighborCache,
    pub hardware_addr: HardwareAddress,
    pub up: bool,
}

// What a line leaves: what is wanted next, and the state.
#[derive(Clone, Copy)]
pub struct After {
    pub want: Want,
    pub card: Card,
}

impl Card {
    // SLAAC is on, the link is down, and the tables are empty.
    pub fn new() -> Card
        ensures { result ≡ new_card }
    {
        Card {
            slaac: Slaac::new(),
            addrs: IfaceAddrs::new(),
            routes: Routes::new(),
            cache: NeighborCache::new(),
            hardware_addr: HardwareAddress { hi: 0, lo: 0 },
            up: false,
        }
    }

    // The link comes up, which restarts router discovery.
    fn link_up(self) -> Card
        ensures { result ≡ up_card self }
    {
        Card {
            slaac: self.slaac.restart(IFACE).slaac,
            up: true,
            ..self
        }
    }

    fn poll(self, time: u64, out: &mut Text) -> Card
        ensures carried { CarriedTo (poll_card self time) out.old result out.new }
        ensures same_buffer { IsSameBuffer out.old out.new }
    {
        let mut message = [0u8; SOLICIT_LEN];
        let polled = autoconf::poll_at(
            self.slaac,
            self.addrs,
            self.routes,
            IFACE,
            self.up,
            self.hardware_addr,
            &mut message,
            Clock::new(Instant(time)),
        )
        .polled;
        printed::poll(out, time, polled.answer, &message);
        Card {
            slaac: polled.slaac,
            addrs: polled.addrs,
            routes: polled.routes,
            ..self
        }
    }

    fn ra(self, time: u64, source: Ipv6Addr, message: &[u8], out: &mut Text) -> Card
        ensures carried { CarriedTo (ra_card self time source message.now) out.old result out.new }
        ensures same_buffer { IsSameBuffer out.old out.new }
    {
        let heard = autoconf::process_advertisement(
            self.slaac,
            self.cache,
            IFACE,
            source,
            message,
            Instant(time),
        );
        printed::ra(out, time, heard.answer);
        Card {
            slaac: heard.slaac,
            cache: heard.cache,
            ..self
        }
    }

    // The program has no packets, so the queue that is purged is empty.
    fn off(self) -> Card
        ensures { result ≡ off_card self }
    {
        let left = autoconf::turn_off(
            self.slaac,
            self.addrs,
            self.routes,
            self.cache,
            PendingQueue::new(),
            IFACE,
        );
        Card {
            slaac: left.slaac,
            addrs: left.addrs,
            routes: left.routes,
            cache: left.cache,
            ..self
        }
    }

    // An event at its time, with the message of an advertisement at the front of `message`.
    fn carry_out(self, time: u64, event: Event, message: &[u8], out: &mut Text) -> Card
        requires { Fits (length message.now) event }
        ensures carried { CarriedTo (carry_out self time event (message_for event message.now)) out.old result out.new }
        ensures same_buffer { IsSameBuffer out.old out.new }
    {
        match event {
            Event::Up => self.link_up(),
            Event::Down => Card { up: false, ..self },
            Event::Poll => self.poll(time, out),
            Event::Ra(source, len) => self.ra(time, source, &message[..len], out),
            Event::Start(addr) => Card {
                cache: neighbors::start(self.cache, time, addr, out),
                ..self
            },
            Event::Sweep => Card {
                cache: neighbors::sweep(self.cache, time, out),
                ..self
            },
            Event::Fill(addr, hardware_addr) => Card {
                cache: neighbors::fill(self.cache, time, addr, hardware_addr, out),
                ..self
            },
            Event::Remove(addr) => Card {
                cache: neighbors::remove(self.cache, addr),
                ..self
            },
            Event::Off => self.off(),
        }
    }

    // An address of the header. What the table refuses is a bad line.
    fn add_address(self, cidr: Ipv6Cidr, want: Want) -> After
        ensures { Applied (added_card self cidr want) result }
    {
        let added = self.addrs.add_ip_addr(IFACE, cidr);
        match added.outcome {
            Err(_) => After {
                want: Want::Failed,
                card: self,
            },
            Ok(()) => After {
                want,
                card: Card {
                    addrs: added.addrs,
                    ..self
                },
            },
        }
    }

    // What a line said.
    fn apply(self, said: Option<Said>, message: &[u8], out: &mut Text) -> After
        requires { FitsSaid (length message.now) said }
        ensures stepped { Stepped (apply_of self said (message_in said message.now)) out.old result out.new }
        ensures same_buffer { IsSameBuffer out.old out.new }
    {
        match said {
            None => After {
                want: Want::Failed,
                card: self,
            },
            Some(Said::Mac(hardware_addr)) => After {
                want: Want::Addresses,
                card: Card {
                    hardware_addr,
                    ..self
                },
            },
            Some(Said::Next(want)) => After { want, card: self },
            Some(Said::Static(cidr, want)) => self.add_address(cidr, want),
            Some(Said::Event(time, event, want)) => After {
                want,
                card: self.carry_out(time, event, message, out),
            },
        }
    }

    // One line of the input.
    pub fn step(self, want: Want, line: &[u8], out: &mut Text) -> After
        ensures step { StepTo want self line.now out.old result out.new }
        ensures same_buffer { IsSameBuffer out.old out.new }
    {
        let mut message = [0u8; MESSAGE_ROOM];
        let said = read_line(want, line, &mut message);
        self.apply(said, &message, out)
    }

    // The state, listed.
    pub fn list(self, out: &mut Text)
        ensures lists { Lists self out.old out.new }
        ensures same_buffer { IsSameBuffer out.old out.new }
    {
        listing::prefixes(out, self.slaac);
        listing::routers(out, self.slaac);
        listing::addresses(out, self.addrs);
        listing::routes(out, self.routes);
        listing::neighbors(out, self.cache);
    }
}
