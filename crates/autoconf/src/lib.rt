// SLAAC of an interface (RFC 4862): an advertisement teaches, a poll solicits and brings addresses and default routes up to date, and
// turning it off takes them away.
#![tactic(auto)]

mod sync;

ghost use Rattle.autoconf.specs.AdvertRules.{CheckedTo, options_in, TaughtTo, AdvertisedTo};
ghost use Rattle.autoconf.specs.PollRules.{sender_of, TurnTo, PolledTo};
ghost use Rattle.autoconf.specs.OffRules.{TurnedOffTo};

use iface::addr::IfaceAddrs;
use iface::route::Routes;
use ndisc::ndisc::{ROUTER_ADVERT_LEN, RouterAdvert, Solicited};
use ndisc::ndiscoption::{NdiscOption, Next};
use neighbor::NeighborCache;
use pending::{Handles, PendingQueue};
use slaac::{Discovery, Slaac};
use time::{Clock, Duration, Instant};
use wire::error::Refusal;
use wire::ethernet::HardwareAddress;
use wire::ipv6::Ipv6Addr;

#[derive(Clone, Copy)]
pub enum AdvertAnswer {
    Off,
    Done,
}

// What an advertisement leaves.
#[derive(Clone, Copy)]
pub struct Advertised {
    pub slaac: Slaac,
    pub cache: NeighborCache,
    pub answer: Result<AdvertAnswer, Refusal>,
}

#[derive(Clone, Copy)]
pub enum PollAnswer {
    Off,
    // Nothing to send.
    Quiet,
    // A solicitation stands in the first `SOLICIT_LEN` bytes of the buffer.
    Solicited,
    // It was due, and did not fit.
    NoRoom,
}

// What a poll leaves.
#[derive(Clone, Copy)]
pub struct Polled {
    pub slaac: Slaac,
    pub addrs: IfaceAddrs,
    pub routes: Routes,
    pub answer: Result<PollAnswer, Refusal>,
}

// The same with the clock.
#[derive(Clone, Copy)]
pub struct PolledAt {
    pub clock: Clock,
    pub polled: Polled,
}

// What the solicitation's turn leaves.
#[derive(Clone, Copy)]
pub struct Turn {
    pub discovery: Discovery,
    pub clock: Clock,
    pub answer: PollAnswer,
}

// What turning SLAAC off leaves, and the handles of the packets that it dropped.
#[derive(Clone, Copy)]
pub struct TurnedOff {
    pub slaac: Slaac,
    pub addrs: IfaceAddrs,
    pub routes: Routes,
    pub cache: NeighborCache,
    pub queue: PendingQueue,
    pub handles: Handles,
    pub outcome: Result<(), Refusal>,
}

// What the options of an advertisement teach.
#[derive(Clone, Copy)]
pub struct Taught {
    pub slaac: Slaac,
    pub lladdr: Option<HardwareAddress>,
}

// The checks of an advertisement, before anything changes: its header, its source, and every option. The walk takes each checked
// option apart, and the first that is refused refuses the message.
fn check_advertisement(source: Ipv6Addr, msg: &[u8]) -> Result<RouterAdvert, Refusal>
    ensures { CheckedTo source msg.now result }
{
    let header = ndisc::ndisc::router_advert(msg)?;
    if !source.is_link_local() {
        return Err(Refusal::NotLinkLocal);
    }
    match ndisc::ndiscoption::check_options(msg, ROUTER_ADVERT_LEN) {
        None => Ok(header),
        Some(_) => Err(Refusal::Malformed),
    }
}

// Second pass over the options: every prefix information option is fed to SLAAC, and the last source link-layer address
// is picked up.
fn learn_options(mut slaac: Slaac, msg: &[u8], timestamp: Instant) -> Taught
    ensures { TaughtTo timestamp slaac (options_in msg.now) result }
{
    let mut lladdr = None;
    let mut at = ROUTER_ADVERT_LEN;
    while let Next::Option { option, next } = ndisc::ndiscoption::next_option(msg, at) {
        at = next;
        match option {
            NdiscOption::SourceLinkLayerAddr(source) => lladdr = Some(source),
            NdiscOption::PrefixInformation(prefix) => {
                slaac = slaac.process_prefix(prefix, timestamp);
            }
            _ => {}
        }
    }
    Taught { slaac, lladdr }
}

// A router advertisement arrives.
pub fn process_advertisement(
    slaac: Slaac,
    cache: NeighborCache,
    iface: u8,
    source: Ipv6Addr,
    msg: &[u8],
    timestamp: Instant,
) -> Advertised
    ensures { AdvertisedTo slaac cache iface source msg.now timestamp result }
{
    if let Err(why) = wire::error::check_time(timestamp, iface) {
        return Advertised {
            slaac,
            cache,
            answer: Err(why),
        };
    }
    if !slaac.on {
        return Advertised {
            slaac,
            cache,
            answer: Ok(AdvertAnswer::Off),
        };
    }
    let header = match check_advertisement(source, msg) {
        Err(why) => {
            return Advertised {
                slaac,
                cache,
                answer: Err(why),
            };
        }
        Ok(header) => header,
    };
    let taught = learn_options(slaac, msg, timestamp);
    let router_lifetime = Duration::from_secs(u32::from(header.router_lifetime));
    let learned = taught
        .slaac
        .process_router(source, router_lifetime, timestamp)
        .store_flags(header.managed, header.other_config);
    if let Some(lladdr) = taught.lladdr {
        if lladdr.is_unicast() {
            // An exit of its own: where both lead to one answer, the cache is copied once more.
            return Advertised {
                slaac: learned,
                cache: cache.fill(iface, source, lladdr, timestamp).cache,
                answer: Ok(AdvertAnswer::Done),
            };
        }
    }
    Advertised {
        slaac: learned,
        cache,
        answer: Ok(AdvertAnswer::Done),
    }
}

// The solicitation's turn. Without a link or a link-local address to send from there is none, and discovery is not even asked, so
// that a card that cannot send is not woken for it.
fn ndisc_rs_egress(
    discovery: Discovery,
    up: bool,
    source: Option<Ipv6Addr>,
    hardware_addr: HardwareAddress,
    buf: &mut [u8],
    clock: Clock,
) -> Turn
    ensures { TurnTo discovery (sender_of up source) hardware_addr buf.old clock result buf.new }
{
    let quiet = Turn {
        discovery,
        clock,
        answer: PollAnswer::Quiet,
    };
    if !up {
        return quiet;
    }
    let Some(src_addr) = source else {
        return quiet;
    };
    let solicitation = discovery.solicit(clock);
    let turn = Turn {
        discovery: solicitation.discovery,
        clock: solicitation.clock,
        answer: PollAnswer::Quiet,
    };
    if !solicitation.due {
        return turn;
    }
    // Too short a buffer uses it up as well: the next is due when its time comes.
    match ndisc::ndisc::write_solicit(buf, src_addr, hardware_addr) {
        Solicited::NoRoom => Turn {
            answer: PollAnswer::NoRoom,
            ..turn
        },
        Solicited::Written => Turn {
            answer: PollAnswer::Solicited,
            ..turn
        },
    }
}

// A poll: the solicitation's turn, then the sync if there is anything to bring up to date.
pub fn poll_at(
    slaac: Slaac,
    addrs: IfaceAddrs,
    routes: Routes,
    iface: u8,
    up: bool,
    hardware_addr: HardwareAddress,
    buf: &mut [u8],
    clock: Clock,
) -> PolledAt
    ensures { PolledTo slaac addrs routes iface up hardware_addr buf.old clock result buf.new }
{
    let timestamp = clock.now;
    if let Err(why) = wire::error::check_time(timestamp, iface) {
        return PolledAt {
            clock,
            polled: Polled {
                slaac,
                addrs,
                routes,
                answer: Err(why),
            },
        };
    }
    if !slaac.on {
        return PolledAt {
            clock,
            polled: Polled {
                slaac,
                addrs,
                routes,
                answer: Ok(PollAnswer::Off),
            },
        };
    }
    let source = addrs.link_local_ipv6_address();
    let turn = ndisc_rs_egress(slaac.discovery, up, source, hardware_addr, buf, clock);
    let sync_due = slaac.is_sync_due(turn.clock);
    let solicited = Slaac {
        discovery: turn.discovery,
        ..slaac
    };
    if sync_due.expired {
        // The neighbours are left alone: the advertisement that asked for this sync may just have filled one.
        return PolledAt {
            clock: sync_due.clock,
            polled: Polled {
                slaac: solicited.update_slaac_state(timestamp),
                addrs: sync::sync_addrs(addrs, solicited, hardware_addr, timestamp),
                routes: sync::sync_routes(routes, solicited, iface, timestamp),
                answer: Ok(turn.answer),
            },
        };
    }
    PolledAt {
        clock: sync_due.clock,
        polled: Polled {
            slaac: solicited,
            addrs,
            routes,
            answer: Ok(turn.answer),
        },
    }
}

// SLAAC off, and its addresses and routes gone. If an address went, the interface's neighbours and packets go too, since they may have
// come by it; the packets' handles come back. What is off already stays.
pub fn turn_off(
    slaac: Slaac,
    addrs: IfaceAddrs,
    routes: Routes,
    cache: NeighborCache,
    queue: PendingQueue,
    iface: u8,
) -> TurnedOff
    ensures { TurnedOffTo slaac addrs routes cache queue iface result }
{
    let unchanged = TurnedOff {
        slaac,
        addrs,
        routes,
        cache,
        queue,
        handles: Handles::new(),
        outcome: Ok(()),
    };
    if let Err(why) = wire::error::check_iface(iface) {
        return TurnedOff {
            outcome: Err(why),
            ..unchanged
        };
    }
    if !slaac.on {
        return unchanged;
    }
    let cleared = addrs.clear_slaac();
    let off = TurnedOff {
        slaac: Slaac::off(),
        addrs: cleared.addrs,
        routes: routes.clear_slaac(iface),
        ..unchanged
    };
    if cleared.any {
        let purged = queue.purge_iface(iface);
        return TurnedOff {
            cache: cache.clear_iface(iface).cache,
            queue: purged.queue,
            handles: purged.handles,
            ..off
        };
    }
    off
}
