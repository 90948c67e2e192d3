// A sweep of an interface: one expiry pass over the whole cache, then the interface's probe events.
#![tactic(auto)]

ghost use Rattle.std.specs.Prelude.{◌≡◌, ◌<◌, [], length};
ghost use Rattle.sweep.specs.SweepCalls.{SweptTo, events_table};
ghost use Rattle.sweep.specs.SweepParts.{AgedTo, timer_of, with_event};
ghost use Rattle.sweep.specs.SweepRules.{expire_clock_state};

use neighbor::{Entry, NEIGHBOR_CACHE_COUNT, NeighborCache, State};
use time::{Clock, Instant};
use wire::error::Refusal;
use wire::ipv6::Ipv6Addr;

// A resolution timer that was due.
#[derive(Clone, Copy)]
pub enum ProbeEvent {
    // Another solicitation is to be sent to the neighbour.
    Retransmit(Ipv6Addr),
    // Resolution failed, and the entry is gone: packets queued on it are to be dropped.
    Failed(Ipv6Addr),
}

// In order. Fixed memory: an array and a count.
#[derive(Clone, Copy)]
pub struct Events {
    pub slots: [ProbeEvent; NEIGHBOR_CACHE_COUNT],
    pub len: usize,
}

#[derive(Clone, Copy)]
pub struct Swept {
    pub cache: NeighborCache,
    pub clock: Clock,
    pub events: Events,
    // How many entries the probe part looked at.
    pub looked: usize,
    pub outcome: Result<(), Refusal>,
}

// What the probe events make of an entry.
#[derive(Clone, Copy)]
enum Timer {
    NotDue,
    // The last probe that it may send went unanswered.
    Spent,
    // Probed once more, with its timer set again.
    Rearmed(Entry),
}

impl Events {
    // No events.
    #[tactic(auto, unfolding(crate::specs::SweepCalls::events_table))]
    pub fn new() -> Events
        ensures { result ≡ events_table [] }
    {
        let blank = ProbeEvent::Retransmit(Ipv6Addr { hi: 0, lo: 0 });
        Events {
            slots: [blank; NEIGHBOR_CACHE_COUNT],
            len: 0,
        }
    }

    fn push(&mut self, event: ProbeEvent)
        requires { self.old.len < length self.old.slots }
        ensures { self.new ≡ with_event event self.old }
    {
        self.slots[self.len] = event;
        self.len += 1;
    }
}

// What the expiry pass makes of a state, if it changes: the timer of a resolution that was started is set, and an expired mapping becomes stale.
fn expire_state(state: State, now: Instant) -> Option<State>
    ensures { AgedTo state now result }
{
    match state {
        State::Started => Some(State::Incomplete {
            probes_sent: 1,
            retrans_at: now.add(NeighborCache::RETRANS_TIMER),
        }),
        State::Reachable {
            hardware_addr,
            expires_at,
        } if expires_at <= now => Some(State::Stale { hardware_addr }),
        // A resolution on its way is left to the probe events, which are one interface's.
        State::Incomplete { .. } | State::Reachable { .. } | State::Stale { .. } => None,
    }
}

// What is still to come joins the clock's deadline.
fn expire_clock(state: State, clock: Clock) -> Clock
    ensures { result ≡ expire_clock_state clock state }
{
    match state {
        State::Started => time::scheduled(clock, clock.now.add(NeighborCache::RETRANS_TIMER)),
        State::Incomplete { retrans_at, .. } => time::asked(clock, retrans_at).clock,
        State::Reachable { expires_at, .. } => time::asked(clock, expires_at).clock,
        State::Stale { .. } => clock,
    }
}

// Advance the retransmission timer of an entry that is being resolved on `iface`.
#[tactic(auto, unfolding(crate::specs::SweepParts::timer_of, crate::specs::SweepRules::due, crate::specs::SweepRules::spent, neighbor::specs::NeighborRules::on_iface))]
fn advance(entry: Entry, iface: u8, now: Instant) -> Timer
    ensures { result ≡ timer_of iface now entry }
{
    match entry.state {
        State::Incomplete {
            probes_sent,
            retrans_at,
        } if iface == entry.iface && retrans_at <= now => {
            if probes_sent >= NeighborCache::MAX_MULTICAST_SOLICIT {
                return Timer::Spent;
            }
            Timer::Rearmed(Entry {
                state: State::Incomplete {
                    probes_sent: probes_sent + 1,
                    retrans_at: now.add(NeighborCache::RETRANS_TIMER),
                },
                ..entry
            })
        }
        _ => Timer::NotDue,
    }
}

// The sweep, with the clock by value. Only entries that change are stored.
pub fn sweep_at(mut cache: NeighborCache, mut clock: Clock, iface: u8) -> Swept
    ensures { SweptTo cache clock iface result }
{
    let now = clock.now;
    let mut events = Events::new();
    if let Err(why) = wire::error::check_time(now, iface) {
        return Swept {
            cache,
            clock,
            events,
            looked: 0,
            outcome: Err(why),
        };
    }
    let mut len = table::count_of(cache.len, NEIGHBOR_CACHE_COUNT);
    // By index: the entry that is read is written too.
    for i in 0..len {
        let state = cache.slots[i].state;
        clock = expire_clock(state, clock);
        if let Some(aged) = expire_state(state, now) {
            cache.slots[i].state = aged;
        }
    }
    let mut looked = 0;
    let mut place = 0;
    // No `for`: a failure leaves the place as it is, and the table shorter.
    while place < len {
        looked += 1;
        let entry = cache.slots[place];
        match advance(entry, iface, now) {
            Timer::NotDue => place += 1,
            Timer::Spent => {
                // What stood last fills the hole, and its turn is next.
                cache.slots[place] = cache.slots[len - 1];
                len -= 1;
                events.push(ProbeEvent::Failed(entry.addr));
            }
            Timer::Rearmed(rearmed) => {
                cache.slots[place] = rearmed;
                place += 1;
                events.push(ProbeEvent::Retransmit(entry.addr));
            }
        }
    }
    cache.len = len;
    Swept {
        cache,
        clock,
        events,
        looked,
        outcome: Ok(()),
    }
}
