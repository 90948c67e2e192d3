// What the answers of calls print, without the newline.
#![tactic(auto)]

use autoconf::{AdvertAnswer, PollAnswer};
use neighbor::{Answer, NEIGHBOR_CACHE_COUNT, Neighbor, NeighborState};
use pending::{Handles, PENDING_QUEUE_COUNT};
use sweep::{Events, ProbeEvent};
use text::print::Text;
use time::Instant;
use wire::error::Refusal;
use wire::ethernet::HardwareAddress;
use wire::ipv6::Ipv6Addr;

// An answer, or a part of one, added to a text.
pub trait Answers {
    // A number after a space.
    fn field(&mut self, value: u64);

    // A word, and a number, an address, a hardware address, a deadline or a flag after it.
    fn number_after(&mut self, word: &[u8], value: u64);

    fn address_after(&mut self, word: &[u8], addr: Ipv6Addr);

    fn hardware_after(&mut self, word: &[u8], hardware_addr: HardwareAddress);

    fn deadline_after(&mut self, word: &[u8], end: Option<Instant>);

    fn flag(&mut self, word: &[u8], set: bool);

    fn yes_or_no(&mut self, yes: bool);

    fn bytes(&mut self, message: &[u8]);

    fn refused(&mut self, why: Refusal);

    fn outcome(&mut self, answered: Result<(), Refusal>);

    // What stands in front of an entry of a list that has a key.
    fn key(&mut self, iface: u8, addr: Ipv6Addr);

    // A word, the count, and the handles.
    fn handles(&mut self, word: &[u8], list: Handles);

    fn push(&mut self, answered: Result<Option<u32>, Refusal>);

    fn release(&mut self, answered: Result<Option<u32>, Refusal>);

    // How many entries a sweep looked at.
    fn looked(&mut self, count: usize);

    // The events of a sweep, in order.
    fn events(&mut self, list: Events);

    fn lookup(&mut self, answered: Result<Answer, Refusal>);

    // A neighbour's state as an application sees it.
    fn neighbor_state(&mut self, state: NeighborState);

    fn got(&mut self, answered: Result<Option<Neighbor>, Refusal>);

    fn advert(&mut self, answered: Result<AdvertAnswer, Refusal>);

    fn poll(&mut self, answered: Result<PollAnswer, Refusal>);
}

impl Answers for Text<'_> {
    fn field(&mut self, value: u64) {
        self.number_after(b" ", value);
    }

    fn number_after(&mut self, word: &[u8], value: u64) {
        self.word(word);
        self.number(value);
    }

    fn address_after(&mut self, word: &[u8], addr: Ipv6Addr) {
        self.word(word);
        self.address(addr);
    }

    fn hardware_after(&mut self, word: &[u8], hardware_addr: HardwareAddress) {
        self.word(word);
        self.hardware(hardware_addr);
    }

    fn deadline_after(&mut self, word: &[u8], end: Option<Instant>) {
        self.word(word);
        match end {
            None => self.word(b"-"),
            Some(time) => self.number(time.0),
        }
    }

    fn flag(&mut self, word: &[u8], set: bool) {
        self.word(word);
        self.word(if set { b"1" } else { b"0" });
    }

    fn yes_or_no(&mut self, yes: bool) {
        if yes {
            self.word(b"yes");
        } else {
            self.word(b"no");
        }
    }

    fn bytes(&mut self, message: &[u8]) {
        if message.is_empty() {
            self.word(b"-");
        } else {
            self.hexes(message);
        }
    }

    fn refused(&mut self, why: Refusal) {
        self.number_after(b"refused ", why.number() as u64);
    }

    fn outcome(&mut self, answered: Result<(), Refusal>) {
        match answered {
            Err(why) => self.refused(why),
            Ok(()) => self.word(b"ok"),
        }
    }

    fn key(&mut self, iface: u8, addr: Ipv6Addr) {
        self.number_after(b"; ", iface as u64);
        self.address_after(b" ", addr);
    }

    fn handles(&mut self, word: &[u8], list: Handles) {
        let count = list.len.min(PENDING_QUEUE_COUNT);
        self.number_after(word, count as u64);
        for handle in &list.slots[..count] {
            self.field(*handle as u64);
        }
    }

    fn push(&mut self, answered: Result<Option<u32>, Refusal>) {
        match answered {
            Err(why) => self.refused(why),
            Ok(None) => self.word(b"dropped 0"),
            Ok(Some(handle)) => self.number_after(b"dropped 1 ", handle as u64),
        }
    }

    fn release(&mut self, answered: Result<Option<u32>, Refusal>) {
        match answered {
            Err(why) => self.refused(why),
            Ok(None) => self.word(b"nothing"),
            Ok(Some(handle)) => self.number_after(b"handle ", handle as u64),
        }
    }

    fn looked(&mut self, count: usize) {
        self.number_after(b" looked ", count as u64);
    }

    fn events(&mut self, list: Events) {
        let count = list.len.min(NEIGHBOR_CACHE_COUNT);
        self.number_after(b" events ", count as u64);
        for event in &list.slots[..count] {
            match *event {
                ProbeEvent::Retransmit(addr) => self.address_after(b"; retransmit ", addr),
                ProbeEvent::Failed(addr) => self.address_after(b"; failed ", addr),
            }
        }
    }

    fn lookup(&mut self, answered: Result<Answer, Refusal>) {
        match answered {
            Err(why) => self.refused(why),
            Ok(Answer::Found(hardware_addr)) => self.hardware_after(b"found ", hardware_addr),
            Ok(Answer::Pending) => self.word(b"pending"),
            Ok(Answer::NotFound) => self.word(b"notfound"),
        }
    }

    fn neighbor_state(&mut self, state: NeighborState) {
        match state {
            NeighborState::Incomplete => self.word(b"incomplete - -"),
            NeighborState::Reachable {
                hardware_addr,
                expires_at,
            } => {
                self.hardware_after(b"reachable ", hardware_addr);
                self.field(expires_at.0);
            }
            NeighborState::Stale { hardware_addr } => {
                self.hardware_after(b"stale ", hardware_addr);
                self.word(b" -");
            }
        }
    }

    fn got(&mut self, answered: Result<Option<Neighbor>, Refusal>) {
        match answered {
            Err(why) => self.refused(why),
            Ok(None) => self.word(b"nothing"),
            Ok(Some(neighbor)) => self.neighbor_state(neighbor.state),
        }
    }

    fn advert(&mut self, answered: Result<AdvertAnswer, Refusal>) {
        match answered {
            Err(why) => self.refused(why),
            Ok(AdvertAnswer::Off) => self.word(b"off"),
            Ok(AdvertAnswer::Done) => self.word(b"ok"),
        }
    }

    fn poll(&mut self, answered: Result<PollAnswer, Refusal>) {
        match answered {
            Err(why) => self.refused(why),
            Ok(PollAnswer::Off) => self.word(b"off"),
            Ok(PollAnswer::Quiet) => self.word(b"nothing"),
            Ok(PollAnswer::Solicited) => self.word(b"solicit"),
            Ok(PollAnswer::NoRoom) => self.word(b"noroom"),
        }
    }
}
