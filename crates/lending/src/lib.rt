// A clock that is held by value is lent for one call, and comes back beside what the call returns: so a program that keeps its clock in a
// struct makes the calls to which a clock is lent.
#![tactic(auto)]

ghost use Rattle.std.specs.Prelude.{◌≡◌};
ghost use Rattle.time.specs.ClockRules.{asked_of, scheduled_of};
ghost use Rattle.lent.specs.LentRules.{ReportedTo, PolledBy as LeftByPoll};

use autoconf::Polled;
use iface::addr::IfaceAddrs;
use iface::route::Routes;
use lent::Reported;
use neighbor::NeighborCache;
use slaac::Slaac;
use time::{Clock, Instant};
use wire::ethernet::HardwareAddress;

// Whether a time has come, and the clock afterwards, which comes back either way.
#[derive(Clone, Copy)]
pub struct Asked {
    pub yes: bool,
    pub clock: Clock,
}

// What a sweep leaves, with the clock.
#[derive(Clone, Copy)]
pub struct SweptBy {
    pub reported: Reported,
    pub clock: Clock,
}

// What a poll leaves, with the clock.
#[derive(Clone, Copy)]
pub struct PolledBy {
    pub polled: Polled,
    pub clock: Clock,
}

// The clock's now, asked of the clock.
pub fn now(clock: Clock) -> Instant
    ensures { result ≡ clock.now }
{
    clock.now()
}

// Whether `at` has come; a time that has not come is scheduled.
pub fn expired(mut clock: Clock, at: Instant) -> Asked
    ensures { (result.yes ≡ (asked_of clock at).expired) × (result.clock ≡ (asked_of clock at).clock) }
{
    let yes = clock.expired(at);
    Asked { yes, clock }
}

// The clock with `at` among the times that someone waits for.
pub fn schedule(mut clock: Clock, at: Instant) -> Clock
    ensures { result ≡ scheduled_of clock at }
{
    clock.schedule(at);
    clock
}

// The sweep at the clock's now, which brings the clock's deadline forward.
pub fn sweep(cache: NeighborCache, mut clock: Clock, iface: u8) -> SweptBy
    ensures { ReportedTo cache clock iface result.reported result.clock }
{
    let reported = lent::sweep(cache, &mut clock, iface);
    SweptBy { reported, clock }
}

// The poll at the clock's now, likewise. What it sends stands in the lent buffer.
pub fn poll(
    slaac: Slaac,
    addrs: IfaceAddrs,
    routes: Routes,
    iface: u8,
    up: bool,
    hardware_addr: HardwareAddress,
    buf: &mut [u8],
    mut clock: Clock,
) -> PolledBy
    ensures { LeftByPoll slaac addrs routes iface up hardware_addr buf.old clock result.polled buf.new result.clock }
{
    let polled = lent::poll(
        slaac,
        addrs,
        routes,
        iface,
        up,
        hardware_addr,
        buf,
        &mut clock,
    );
    PolledBy { polled, clock }
}
