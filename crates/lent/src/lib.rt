// The outermost calls, to which the clock is lent. Each reads the clock whole, makes one call with the clock by value, and stores it
// whole.
#![tactic(auto)]

ghost use Rattle.lent.specs.LentRules.{ReportedTo, PolledBy};

use autoconf::{Polled, poll_at};
use iface::addr::IfaceAddrs;
use iface::route::Routes;
use neighbor::NeighborCache;
use slaac::Slaac;
use sweep::{Events, sweep_at};
use time::Clock;
use wire::error::Refusal;
use wire::ethernet::HardwareAddress;

// What a sweep leaves beside the clock.
#[derive(Clone, Copy)]
pub struct Reported {
    pub cache: NeighborCache,
    pub events: Events,
    pub looked: usize,
    pub outcome: Result<(), Refusal>,
}

// The sweep at the lent clock's now, which brings the clock's deadline forward.
pub fn sweep(cache: NeighborCache, clock: &mut Clock, iface: u8) -> Reported
    ensures { ReportedTo cache clock.old iface result clock.new }
{
    let swept = sweep_at(cache, *clock, iface);
    *clock = swept.clock;
    Reported {
        cache: swept.cache,
        events: swept.events,
        looked: swept.looked,
        outcome: swept.outcome,
    }
}

// The poll at the lent clock's now, likewise. What it sends stands in the lent buffer.
pub fn poll(
    slaac: Slaac,
    addrs: IfaceAddrs,
    routes: Routes,
    iface: u8,
    up: bool,
    hardware_addr: HardwareAddress,
    buf: &mut [u8],
    clock: &mut Clock,
) -> Polled
    ensures { PolledBy slaac addrs routes iface up hardware_addr buf.old clock.old result buf.new clock.new }
{
    let polled_at = poll_at(slaac, addrs, routes, iface, up, hardware_addr, buf, *clock);
    *clock = polled_at.clock;
    polled_at.polled
}
