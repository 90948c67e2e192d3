// What router advertisements teach an interface: prefixes, routers, flags, and the phase of router discovery.
#![tactic(auto)]

ghost use Rattle.std.specs.Prelude.{◌≡◌, true, false, not, ◌<◌};
ghost use Rattle.std.specs.Fn.{FnReturnsAt};
ghost use Rattle.time.specs.declared.Expiry.TheVariants.{At};
ghost use Rattle.time.specs.ClockRules.{is_after};
ghost use Rattle.slaac.specs.Slots.{Puts};
ghost use Rattle.slaac.specs.LearnedRules.{is_skipped, cidr_of, until_of, prefix_of, add_prefix, expire_prefix, process_prefix_is, add_router, expire_router, process_router_is, heard, store_flags_is, PrefixListed, RouterListed};
ghost use Rattle.slaac.specs.DiscoveryRules.{due, sent, solicitation, begun, fresh, RestartedTo, TurnedOnTo};
ghost use Rattle.slaac.specs.ExpiryRules.{ask_also, sync_due, leave_expired};

use ndisc::ndiscoption::PrefixInformation;
use table::count_of;
use time::{Answer, Clock, Duration, Expiry, Instant};
use wire::error::{Refusal, check_iface};
use wire::ipv6::{Ipv6Addr, Ipv6Cidr};

// How many prefixes SLAAC keeps of an interface.
pub const SLAAC_PREFIX_COUNT: usize = 4;

// How many routers.
pub const SLAAC_ROUTER_COUNT: usize = 2;

// The length of a prefix that is a whole address.
const MAX_PREFIX_LEN: u8 = 128;

// A prefix that was advertised, and its two times.
#[derive(Clone, Copy)]
pub struct Prefix {
    pub cidr: Ipv6Cidr,
    pub preferred_until: Expiry,
    pub valid_until: Expiry,
}

// A default router: the source of an advertisement.
#[derive(Clone, Copy)]
pub struct Router {
    pub addr: Ipv6Addr,
    pub valid_until: Instant,
}

// How far router discovery has come.
#[derive(Clone, Copy)]
pub enum Phase {
    // Nothing is sent yet: the first poll that can will send.
    Start,
    // Sent, and unanswered; another goes out at that time if any is left.
    Discovering(Instant),
    Maintaining,
}

// The phase, and how many solicitations are left.
#[derive(Clone, Copy)]
pub struct Discovery {
    pub phase: Phase,
    pub num_solicitations: u8,
}

// For the application to read.
#[derive(Clone, Copy)]
pub struct SlaacState {
    // Whether there is a router at all: an advertisement was taken.
    pub routers_seen: bool,
    // The newest one's flag 0x80: DHCPv6 has addresses.
    pub managed: bool,
    // The newest one's flag 0x40: DHCPv6 has the rest.
    pub other_config: bool,
}

// SLAAC of one interface. Its two tables are arrays, and counts, which may be above their size (document 01). Its addresses and routes
// are in the interface's tables, which a sync brings up to date.
#[derive(Clone, Copy)]
pub struct Slaac {
    pub on: bool,
    pub prefixes: [Prefix; SLAAC_PREFIX_COUNT],
    pub prefix_count: usize,
    pub routers: [Router; SLAAC_ROUTER_COUNT],
    pub router_count: usize,
    pub discovery: Discovery,
    pub sync_required: bool,
    pub state: SlaacState,
}

// States go by value (document 01): the outcome stands beside.
#[derive(Clone, Copy)]
pub struct Changed {
    pub slaac: Slaac,
    pub outcome: Result<(), Refusal>,
}

// Whether a solicitation goes out, and what it leaves either way.
#[derive(Clone, Copy)]
pub struct Solicitation {
    pub due: bool,
    pub discovery: Discovery,
    pub clock: Clock,
}

// Check a, b and c of RFC 4862, 5.5.3. Multicast prefixes and lengths above 128 are skipped too.
fn is_valid_prefix_info(info: PrefixInformation) -> bool
    ensures { result ≡ not (is_skipped info) }
{
    let too_long = info.prefix_len > MAX_PREFIX_LEN;
    let outlives = info.preferred_lifetime > info.valid_lifetime;
    !(too_long
        || !info.addrconf
        || info.prefix.is_link_local()
        || info.prefix.is_multicast()
        || outlives)
}

// The prefix that an option names.
fn cidr_of(info: PrefixInformation) -> Ipv6Cidr
    ensures { result ≡ cidr_of info }
{
    Ipv6Cidr {
        address: info.prefix,
        prefix_len: info.prefix_len,
    }
}

// When a prefix's lifetime ends, counted from now.
fn lifetime_end(seconds: u32, now: Instant) -> Expiry
    ensures { result ≡ until_of now seconds }
{
    if seconds == Prefix::INFINITE_LIFETIME {
        return Expiry::Forever;
    }
    Expiry::At(now.add(Duration::from_secs(seconds)))
}

// The clock is asked of one end more.
fn ask_also(so_far: Answer, end: Expiry) -> Answer
    ensures { result ≡ ask_also so_far end }
{
    let asked = time::asked_of(so_far.clock, end);
    Answer {
        expired: so_far.expired || asked.expired,
        ..asked
    }
}

// The first entry that passes becomes `entry`; where none does it is appended, unless the table is full. Whether it stands there now.
fn put<T: Copy, F: Fn(&T) -> bool>(slots: &mut [T], len: &mut usize, entry: T, test: F) -> bool
    requires { F.IsAlwaysCallable test }
    ensures { Puts (λ x b. FnReturnsAt F.Fn test x b) entry slots.old len.old slots.new len.new result }
{
    let count = count_of(*len, slots.len());
    let at = table::position(&slots[..count], test).unwrap_or(count);
    *len = count;
    if at < slots.len() {
        slots[at] = entry;
        *len = count.max(at + 1);
        return true;
    }
    false
}

impl Prefix {
    // All one bits represent infinity (RFC 4861, 4.6.2).
    pub const INFINITE_LIFETIME: u32 = 0xffff_ffff;

    // The prefix of an option that arrives now.
    fn from_prefix(info: PrefixInformation, now: Instant) -> Prefix
        ensures { result ≡ prefix_of info now }
    {
        Prefix {
            cidr: cidr_of(info),
            preferred_until: lifetime_end(info.preferred_lifetime, now),
            valid_until: lifetime_end(info.valid_lifetime, now),
        }
    }

    // Whether its address may still be used.
    pub fn is_valid(self, now: Instant) -> bool
        ensures { result ≡ is_after self.valid_until now }
    {
        self.valid_until.is_after(now)
    }

    // Whether it is still preferred.
    pub fn is_preferred(self, now: Instant) -> bool
        ensures { result ≡ is_after self.preferred_until now }
    {
        self.preferred_until.is_after(now)
    }

    // Whether it has expired, on top of what was answered before.
    fn has_expired(self, before: Answer) -> Answer
        ensures { result ≡ ask_also before self.valid_until }
    {
        ask_also(before, self.valid_until)
    }
}

impl Router {
    // Whether the router is still valid.
    pub fn is_valid(self, now: Instant) -> bool
        ensures { result ≡ is_after (At self.valid_until) now }
    {
        self.valid_until > now
    }

    fn has_expired(self, before: Answer) -> Answer
        ensures { result ≡ ask_also before (At self.valid_until) }
    {
        ask_also(before, Expiry::At(self.valid_until))
    }
}

impl Discovery {
    fn new() -> Discovery
        ensures { result ≡ begun }
    {
        Discovery {
            phase: Phase::Start,
            num_solicitations: Slaac::MAX_RTR_SOLICITATIONS,
        }
    }

    // An advertisement was heard. It might be unsolicited, so the phase Start stays.
    fn heard(self) -> Discovery
        ensures { result ≡ heard self }
    {
        match self.phase {
            Phase::Start | Phase::Maintaining => self,
            Phase::Discovering(_) => Discovery {
                phase: Phase::Maintaining,
                ..self
            },
        }
    }

    // Whether it is time to send. The clock is asked last, so that a timer of one that cannot be sent wakes nobody.
    fn rs_required(self, clock: Clock) -> Answer
        ensures { result ≡ due self clock }
    {
        if self.num_solicitations == 0 {
            return Answer {
                expired: false,
                clock,
            };
        }
        match self.phase {
            Phase::Start => Answer {
                expired: true,
                clock,
            },
            Phase::Discovering(retry_rs_at) => time::asked(clock, retry_rs_at),
            Phase::Maintaining => Answer {
                expired: false,
                clock,
            },
        }
    }

    // One was sent.
    fn rs_sent(self, clock: Clock) -> Solicitation
        requires { 0 < self.num_solicitations }
        ensures { result ≡ sent self clock }
    {
        let retry_rs_at = clock.now.add(Slaac::RTR_SOLICITATION_INTERVAL);
        let left = self.num_solicitations - 1;
        let discovery = Discovery {
            phase: Phase::Discovering(retry_rs_at),
            num_solicitations: left,
        };
        let clock = if left == 0 {
            clock
        } else {
            time::scheduled(clock, retry_rs_at)
        };
        Solicitation {
            due: true,
            discovery,
            clock,
        }
    }

    // The turn of an interface that is up and has a link-local address.
    pub fn solicit(self, clock: Clock) -> Solicitation
        ensures { result ≡ solicitation self clock }
    {
        let required = self.rs_required(clock);
        if required.expired {
            return self.rs_sent(required.clock);
        }
        Solicitation {
            due: false,
            discovery: self,
            clock: required.clock,
        }
    }
}

impl Slaac {
    pub const MAX_RTR_SOLICITATIONS: u8 = 3;

    pub const RTR_SOLICITATION_INTERVAL: Duration = Duration(4_000);

    // Nothing learned.
    fn fresh(on: bool) -> Slaac
        ensures { result ≡ fresh on }
    {
        let blank_prefix = Prefix {
            cidr: Ipv6Cidr {
                address: Ipv6Addr { hi: 0, lo: 0 },
                prefix_len: 0,
            },
            preferred_until: Expiry::At(Instant(0)),
            valid_until: Expiry::At(Instant(0)),
        };
        let blank_router = Router {
            addr: Ipv6Addr { hi: 0, lo: 0 },
            valid_until: Instant(0),
        };
        Slaac {
            on,
            prefixes: [blank_prefix; SLAAC_PREFIX_COUNT],
            prefix_count: 0,
            routers: [blank_router; SLAAC_ROUTER_COUNT],
            router_count: 0,
            discovery: Discovery::new(),
            sync_required: false,
            state: SlaacState {
                routers_seen: false,
                managed: false,
                other_config: false,
            },
        }
    }

    // SLAAC turned on, with nothing learned.
    pub fn new() -> Slaac
        ensures { result ≡ fresh true }
    {
        Slaac::fresh(true)
    }

    // SLAAC turned off: one value.
    pub fn off() -> Slaac
        ensures { result ≡ fresh false }
    {
        Slaac::fresh(false)
    }

    // The entry of that prefix is refreshed; a missing one is appended, unless the table is full.
    fn add_prefix(mut self, prefix: Prefix) -> Slaac
        ensures { result ≡ add_prefix self prefix }
    {
        let stands = put(
            &mut self.prefixes,
            &mut self.prefix_count,
            prefix,
            |entry| entry.cidr == prefix.cidr,
        );
        self.sync_required |= stands;
        self
    }

    // The entry of that prefix, if there is one, has run out.
    fn expire_prefix(mut self, cidr: Ipv6Cidr, now: Instant) -> Slaac
        ensures { result ≡ expire_prefix self cidr now }
    {
        self.prefix_count = count_of(self.prefix_count, SLAAC_PREFIX_COUNT);
        let entries = &self.prefixes[..self.prefix_count];
        if let Some(at) = table::position(entries, |entry| entry.cidr == cidr) {
            let entry = &mut self.prefixes[at];
            entry.preferred_until = Expiry::At(now);
            entry.valid_until = Expiry::At(now);
            self.sync_required = true;
        }
        self
    }

    // A prefix option of an advertisement that arrives now.
    pub fn process_prefix(self, info: PrefixInformation, now: Instant) -> Slaac
        ensures { result ≡ process_prefix_is now self info }
    {
        if is_valid_prefix_info(info) {
            if info.valid_lifetime > 0 {
                return self.add_prefix(Prefix::from_prefix(info, now));
            }
            return self.expire_prefix(cidr_of(info), now);
        }
        self
    }

    // The router's entry is refreshed; a missing one is appended, unless the table is full.
    fn add_router(mut self, router: Router) -> Slaac
        ensures { result ≡ add_router self router }
    {
        let stands = put(
            &mut self.routers,
            &mut self.router_count,
            router,
            |entry| entry.addr == router.addr,
        );
        self.sync_required |= stands;
        self
    }

    // The router's entry, if there is one, has run out.
    // Beside `expire_prefix`: past the search, which is `table`'s, other fields end.
    fn expire_router(mut self, addr: Ipv6Addr, now: Instant) -> Slaac
        ensures { result ≡ expire_router self addr now }
    {
        self.router_count = count_of(self.router_count, SLAAC_ROUTER_COUNT);
        let entries = &self.routers[..self.router_count];
        if let Some(at) = table::position(entries, |entry| entry.addr == addr) {
            self.routers[at].valid_until = now;
            self.sync_required = true;
        }
        self
    }

    // The source of an advertisement that arrives now is a default router for that lifetime.
    pub fn process_router(self, source: Ipv6Addr, lifetime: Duration, now: Instant) -> Slaac
        ensures { result ≡ process_router_is now self source lifetime }
    {
        if lifetime.0 > 0 {
            let valid_until = now.add(lifetime);
            return self.add_router(Router {
                addr: source,
                valid_until,
            });
        }
        self.expire_router(source, now)
    }

    // An advertisement's flags are stored, and that it was heard.
    pub fn store_flags(self, managed: bool, other_config: bool) -> Slaac
        ensures { result ≡ store_flags_is self managed other_config }
    {
        Slaac {
            discovery: self.discovery.heard(),
            state: SlaacState {
                routers_seen: true,
                managed,
                other_config,
            },
            ..self
        }
    }

    // Whether the tables are behind. It asks of every time, though one would do, so that the clock has heard of them all.
    pub fn is_sync_due(self, clock: Clock) -> Answer
        ensures { result ≡ sync_due self clock }
    {
        let prefix_count = count_of(self.prefix_count, SLAAC_PREFIX_COUNT);
        let router_count = count_of(self.router_count, SLAAC_ROUTER_COUNT);
        let sync_required = Answer {
            expired: self.sync_required,
            clock,
        };
        let asked = self.prefixes[..prefix_count]
            .iter()
            .fold(sync_required, |answer, prefix| prefix.has_expired(answer));
        self.routers[..router_count]
            .iter()
            .fold(asked, |answer, router| router.has_expired(answer))
    }

    // Expired prefixes and routers leave, and the request is cleared.
    pub fn update_slaac_state(mut self, now: Instant) -> Slaac
        ensures { result ≡ leave_expired now self }
    {
        let prefix_count = count_of(self.prefix_count, SLAAC_PREFIX_COUNT);
        self.prefix_count = table::retain(
            &mut self.prefixes,
            prefix_count,
            |prefix| prefix.is_valid(now),
        );
        let router_count = count_of(self.router_count, SLAAC_ROUTER_COUNT);
        self.router_count = table::retain(
            &mut self.routers,
            router_count,
            |router| router.is_valid(now),
        );
        self.sync_required = false;
        self
    }

    // Discovery from the start, as after the link was down (RFC 4861, 6.3.7); what is known stays.
    pub fn restart(mut self, iface: u8) -> Changed
        ensures { RestartedTo self iface result }
    {
        if let Err(why) = check_iface(iface) {
            return Changed {
                slaac: self,
                outcome: Err(why),
            };
        }
        if self.on {
            self.discovery = Discovery::new();
        }
        Changed {
            slaac: self,
            outcome: Ok(()),
        }
    }

    // Turned on with nothing learned; what is on already stays.
    pub fn turn_on(self, iface: u8) -> Changed
        ensures { TurnedOnTo self iface result }
    {
        if let Err(why) = check_iface(iface) {
            return Changed {
                slaac: self,
                outcome: Err(why),
            };
        }
        // An exit of its own: as one value, the two would be copied once more.
        if self.on {
            return Changed {
                slaac: self,
                outcome: Ok(()),
            };
        }
        Changed {
            slaac: Slaac::new(),
            outcome: Ok(()),
        }
    }

    // The listing of the prefixes, entry by entry.
    pub fn prefix_at(self, index: usize) -> Option<Prefix>
        ensures { PrefixListed self index result }
    {
        let count = count_of(self.prefix_count, SLAAC_PREFIX_COUNT);
        self.prefixes[..count].get(index).copied()
    }

    // And of the routers.
    pub fn router_at(self, index: usize) -> Option<Router>
        ensures { RouterListed self index result }
    {
        let count = count_of(self.router_count, SLAAC_ROUTER_COUNT);
        self.routers[..count].get(index).copied()
    }
}
