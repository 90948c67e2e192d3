// The main loop of a card that uses the library: which call comes after what, and how long the card may sleep.
#![tactic(auto)]

ghost use Rattle.std.specs.Prelude.{◌≡◌};
ghost use Rattle.neighbor.specs.CacheCalls.{key};
ghost use Rattle.mainloop.specs.LoopRules.{message_in, ready_of, sent, filled, learned, heard, taken, not_taken_is, SettledTo, TurnedTo, blank_report, RanTo};

use autoconf::{AdvertAnswer, PollAnswer, poll_at, process_advertisement};
use iface::addr::IfaceAddrs;
use iface::route::Routes;
use neighbor::{Answer, NeighborCache};
use pending::{Handles, PENDING_QUEUE_COUNT, PendingQueue};
use slaac::Slaac;
use sweep::{Events, sweep_at};
use table::count_of;
use time::{Clock, Instant};
use wire::error::{Refusal, check_time};
use wire::ethernet::HardwareAddress;
use wire::ipv6::Ipv6Addr;

// A card with one interface.
pub const IFACE: u8 = 0;

// How many inputs the inbox holds.
pub const INBOX_COUNT: usize = 4;

#[derive(Clone, Copy)]
pub struct Card {
    pub slaac: Slaac,
    pub addrs: IfaceAddrs,
    pub routes: Routes,
    pub cache: NeighborCache,
    pub queue: PendingQueue,
}

// What wakes a card.
#[derive(Clone, Copy)]
pub enum Input {
    // The time until which it slept.
    Timer,
    // The link came up.
    LinkUp,
    // A router's advertisement, from this source.
    RouterAdvert(Ipv6Addr),
    // A neighbour's advertisement, its answer to a solicitation: whose, and the hardware address that it names.
    NeighborAdvert(Ipv6Addr, HardwareAddress),
    // A packet to send to a neighbour.
    Packet(Ipv6Addr, u32),
}

// What is to be done about it at once.
#[derive(Clone, Copy)]
pub enum Action {
    Nothing,
    // What the advertisement was answered. Its router is not known as a neighbour.
    Heard(Result<AdvertAnswer, Refusal>),
    // The same of a router that is known: the packets that are ready go to this address, in order.
    HeardFrom(Result<AdvertAnswer, Refusal>, HardwareAddress),
    // The input was refused, its time or its address, and the card is as it was: whoever queued a packet has it back.
    Refused(Refusal),
    // The packets that are ready go to this address, in order.
    Send(HardwareAddress),
    // The packet waits: its push is never refused, and a packet that it dropped to make room is handed back.
    Wait(Result<Option<u32>, Refusal>),
    // The same, and its neighbour is to be solicited.
    Solicit(Result<Option<u32>, Refusal>),
}

// What an input leaves.
#[derive(Clone, Copy)]
pub struct Taken {
    pub card: Card,
    pub action: Action,
    pub ready: Handles,
}

// The packets that waited for a neighbour, and the queue without them.
#[derive(Clone, Copy)]
pub struct Ready {
    pub queue: PendingQueue,
    pub handles: Handles,
}

// What is left for the card to do before it sleeps.
#[derive(Clone, Copy)]
pub struct Settled {
    pub card: Card,
    // Whether a router solicitation stands in the buffer.
    pub answer: Result<PollAnswer, Refusal>,
    // The neighbours to solicit again, and those that failed.
    pub events: Events,
    // The packets that nothing will release, handed back to whoever queued them.
    pub dropped: Handles,
    // Until when it may sleep, if nothing comes.
    pub wake: Option<Instant>,
}

// What woke the card, when, and whether the link was up. An advertisement's message is a stretch of the receive buffer; with another input
// it is not read.
#[derive(Clone, Copy)]
pub struct Woken {
    pub at: Instant,
    pub up: bool,
    pub input: Input,
    pub message_from: usize,
    pub message_len: usize,
}

// All that a turn leaves to do.
#[derive(Clone, Copy)]
pub struct Report {
    pub action: Action,
    pub ready: Handles,
    pub answer: Result<PollAnswer, Refusal>,
    pub events: Events,
    pub dropped: Handles,
}

// What a turn leaves.
#[derive(Clone, Copy)]
pub struct Turned {
    pub card: Card,
    pub report: Report,
    pub wake: Option<Instant>,
}

// What the card's drivers gave, in order. Fixed memory: an array, and a count, which may be above its size.
#[derive(Clone, Copy)]
pub struct Inbox {
    pub slots: [Woken; INBOX_COUNT],
    pub len: usize,
}

// A report for each turn, in order.
#[derive(Clone, Copy)]
pub struct Reports {
    pub slots: [Report; INBOX_COUNT],
    pub len: usize,
}

// What a run leaves.
#[derive(Clone, Copy)]
pub struct Ran {
    pub card: Card,
    pub reports: Reports,
    pub wake: Option<Instant>,
}

// An input is refused, and the card is as it was.
fn not_taken(card: Card, why: Refusal) -> Taken
    ensures { result ≡ not_taken_is card why }
{
    Taken {
        card,
        action: Action::Refused(why),
        ready: Handles::new(),
    }
}

// A stretch of what was received, as far as there is one: nothing past the end is read.
fn part(received: &[u8], from: usize, len: usize) -> &[u8]
    ensures { result.now ≡ message_in received.now from len }
{
    let start = count_of(from, received.len());
    let size = count_of(len, received.len() - start);
    &received[start..start + size]
}

// The packets that wait for a neighbour, released one by one.
fn release_all(mut queue: PendingQueue, addr: Ipv6Addr) -> Ready
    ensures { result ≡ ready_of (key 0 addr) queue }
{
    let mut handles = Handles::new();
    // By index: a place is the count too.
    for i in 0..PENDING_QUEUE_COUNT {
        let released = queue.release(IFACE, addr);
        let Some(handle) = released.answer.unwrap_or(None) else {
            break;
        };
        queue = released.queue;
        handles.slots[i] = handle;
        handles.len = i + 1;
    }
    Ready { queue, handles }
}

// A packet goes to a neighbour that is known. For another it waits, and the first that waits has the neighbour solicited.
fn send(card: Card, addr: Ipv6Addr, handle: u32) -> Taken
    ensures { result ≡ sent card addr handle }
{
    match card.cache.lookup(IFACE, addr) {
        Err(why) => not_taken(card, why),
        Ok(Answer::Found(hardware_addr)) => Taken {
            card,
            action: Action::Send(hardware_addr),
            ready: Handles::one(handle),
        },
        Ok(Answer::Pending) => {
            let pushed = card.queue.push(IFACE, addr, handle);
            Taken {
                card: Card {
                    queue: pushed.queue,
                    ..card
                },
                action: Action::Wait(pushed.answer),
                ready: Handles::new(),
            }
        }
        Ok(Answer::NotFound) => {
            let pushed = card.queue.push(IFACE, addr, handle);
            let started = card.cache.start_resolution(IFACE, addr);
            Taken {
                card: Card {
                    queue: pushed.queue,
                    cache: started.cache,
                    ..card
                },
                action: Action::Solicit(pushed.answer),
                ready: Handles::new(),
            }
        }
    }
}

// A neighbour is known from now on, and what waited for it goes.
fn fill(card: Card, addr: Ipv6Addr, hardware_addr: HardwareAddress, timestamp: Instant) -> Taken
    ensures { result ≡ filled card addr hardware_addr timestamp }
{
    let change = card.cache.fill(IFACE, addr, hardware_addr, timestamp);
    match change.outcome {
        Err(why) => not_taken(card, why),
        Ok(()) => {
            let released = release_all(card.queue, addr);
            Taken {
                card: Card {
                    queue: released.queue,
                    cache: change.cache,
                    ..card
                },
                action: Action::Send(hardware_addr),
                ready: released.handles,
            }
        }
    }
}

// A neighbour answered. One that is neither known nor looked for is passed over (RFC 4861 7.2.5), and so drives no entry out.
fn learn(card: Card, addr: Ipv6Addr, hardware_addr: HardwareAddress, timestamp: Instant) -> Taken
    ensures { result ≡ learned card addr hardware_addr timestamp }
{
    let known = match card.cache.lookup(IFACE, addr) {
        Ok(known) => known,
        Err(why) => return not_taken(card, why),
    };
    match known {
        Answer::NotFound => Taken {
            card,
            action: Action::Nothing,
            ready: Handles::new(),
        },
        Answer::Pending | Answer::Found(_) => fill(card, addr, hardware_addr, timestamp),
    }
}

// An advertisement may make its router known as a neighbour: then what waited for it goes.
fn hear(card: Card, source: Ipv6Addr, message: &[u8], timestamp: Instant) -> Taken
    ensures { result ≡ heard card source message.now timestamp }
{
    let heard = process_advertisement(card.slaac, card.cache, IFACE, source, message, timestamp);
    let card = Card {
        slaac: heard.slaac,
        cache: heard.cache,
        ..card
    };
    let heard_only = Taken {
        card,
        action: Action::Heard(heard.answer),
        ready: Handles::new(),
    };
    let Ok(known) = card.cache.lookup(IFACE, source) else {
        return heard_only;
    };
    let Answer::Found(hardware_addr) = known else {
        return heard_only;
    };
    let released = release_all(card.queue, source);
    Taken {
        card: Card {
            queue: released.queue,
            ..card
        },
        action: Action::HeardFrom(heard.answer, hardware_addr),
        ready: released.handles,
    }
}

// The start of every turn: what came is taken. The message is an advertisement's. At a time above 2^62 nothing is taken.
pub fn take(card: Card, input: Input, message: &[u8], timestamp: Instant) -> Taken
    ensures { result ≡ taken card input message.now timestamp }
{
    if let Err(why) = check_time(timestamp, IFACE) {
        return not_taken(card, why);
    }
    match input {
        Input::Timer => Taken {
            card,
            action: Action::Nothing,
            ready: Handles::new(),
        },
        Input::LinkUp => Taken {
            card: Card {
                slaac: card.slaac.restart(IFACE).slaac,
                ..card
            },
            action: Action::Nothing,
            ready: Handles::new(),
        },
        Input::RouterAdvert(source) => hear(card, source, message, timestamp),
        Input::NeighborAdvert(addr, hardware_addr) => learn(card, addr, hardware_addr, timestamp),
        Input::Packet(addr, handle) => send(card, addr, handle),
    }
}

// The end of every turn. The sweep's events do not touch the clock, so a sweep that set a timer anew is followed by one more, on the
// same clock: it finds nothing due, and its deadline is the earliest time at which anything can happen. At a time above 2^62 nothing
// happens, the card and the buffer are as they were, and no time to wake is told.
pub fn settle(
    card: Card,
    up: bool,
    hardware_addr: HardwareAddress,
    buf: &mut [u8],
    timestamp: Instant,
) -> Settled
    ensures { SettledTo card up hardware_addr buf.old timestamp result buf.new }
{
    if let Err(why) = check_time(timestamp, IFACE) {
        return Settled {
            card,
            answer: Err(why),
            events: Events::new(),
            dropped: Handles::new(),
            wake: None,
        };
    }
    let clock = Clock::new(timestamp);
    let polled_at = poll_at(
        card.slaac,
        card.addrs,
        card.routes,
        IFACE,
        up,
        hardware_addr,
        buf,
        clock,
    );
    let polled = polled_at.polled;
    let swept = sweep_at(card.cache, polled_at.clock, IFACE);
    let swept_again = sweep_at(swept.cache, swept.clock, IFACE);
    let purged = card.queue.purge_orphans(swept_again.cache);
    Settled {
        card: Card {
            slaac: polled.slaac,
            addrs: polled.addrs,
            routes: polled.routes,
            cache: swept_again.cache,
            queue: purged.queue,
        },
        answer: polled.answer,
        events: swept.events,
        dropped: purged.handles,
        wake: swept_again.clock.deadline,
    }
}

// One turn: what came is taken, and the card settles.
pub fn turn(
    card: Card,
    woken: Woken,
    received: &[u8],
    hardware_addr: HardwareAddress,
    buf: &mut [u8],
) -> Turned
    ensures { TurnedTo card woken received.now hardware_addr buf.old result buf.new }
{
    let message = part(received, woken.message_from, woken.message_len);
    let taken = take(card, woken.input, message, woken.at);
    let settled = settle(taken.card, woken.up, hardware_addr, buf, woken.at);
    Turned {
        card: settled.card,
        report: Report {
            action: taken.action,
            ready: taken.ready,
            answer: settled.answer,
            events: settled.events,
            dropped: settled.dropped,
        },
        wake: settled.wake,
    }
}

fn blank() -> Report
    ensures { result ≡ blank_report }
{
    Report {
        action: Action::Nothing,
        ready: Handles::new(),
        answer: Ok(PollAnswer::Quiet),
        events: Events::new(),
        dropped: Handles::new(),
    }
}

// The loop: a turn for each input, as far as the budget goes. Inputs past the reports' count were not taken and are to be offered again.
// Without a turn the card may sleep as long as before. In the buffer stands the last solicitation.
pub fn run(
    card: Card,
    wake: Option<Instant>,
    inbox: Inbox,
    received: &[u8],
    hardware_addr: HardwareAddress,
    buf: &mut [u8],
    budget: usize,
) -> Ran
    ensures { RanTo card wake inbox received.now hardware_addr buf.old budget result buf.new }
{
    let turns = count_of(count_of(inbox.len, INBOX_COUNT), budget);
    let mut sleeping = card;
    let mut sleep_until = wake;
    let mut reports = [blank(); INBOX_COUNT];
    for (i, woken) in inbox.slots[..turns].iter().enumerate() {
        let turned = turn(sleeping, *woken, received, hardware_addr, buf);
        sleeping = turned.card;
        sleep_until = turned.wake;
        reports[i] = turned.report;
    }
    Ran {
        card: sleeping,
        reports: Reports {
            slots: reports,
            len: turns,
        },
        wake: sleep_until,
    }
}
