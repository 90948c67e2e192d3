// The addresses of an interface.
ghost use Rattle.std.specs.Prelude.{◌≡◌};
ghost use Rattle.table.specs.Calls.{place_of};
ghost use Rattle.iface.specs.AddressRules.{addrs_of, with_addrs, empty_addrs, is_slaac, is_addr, manual_addr, AddedTo, drop_addr, clear_addrs, is_local, LocalOf, AddrListed};

use crate::check_prefix;
use table::{count_of, position, remove, retain};
use time::Expiry;
use wire::error::Refusal;
use wire::ipv6::{Ipv6Addr, Ipv6Cidr};

// How many addresses an interface can hold.
pub const IFACE_ADDR_COUNT: usize = 8;

// Who put an address there. A type apart from a route's origin, as in the Rust.
#[derive(Clone, Copy)]
pub enum AddrOrigin {
    // The application.
    Manual,
    // The sync, for a prefix that was advertised.
    Slaac,
}

// For how long an address is chosen to send from; after that it still receives (RFC 4862, 5.5.4).
#[derive(Clone, Copy)]
pub enum Preferred {
    // The application's: no lifetime was given.
    Always,
    // Up to that end, and not at it.
    Until(Expiry),
    // Its time has run out.
    Never,
}

// An entry: the address and its length are the key, the rest is how it came and how long it is preferred.
#[derive(Clone, Copy)]
pub struct IfaceAddr {
    pub cidr: Ipv6Cidr,
    pub origin: AddrOrigin,
    pub preferred: Preferred,
}

// Fixed memory: an array, and a count, which may be above its size (document 01).
#[derive(Clone, Copy)]
pub struct IfaceAddrs {
    pub slots: [IfaceAddr; IFACE_ADDR_COUNT],
    pub len: usize,
}

// What the application's call leaves.
#[derive(Clone, Copy)]
pub struct Added {
    pub addrs: IfaceAddrs,
    pub outcome: Result<(), Refusal>,
}

// The table without SLAAC's addresses, which comes back either way, and whether there were any.
#[derive(Clone, Copy)]
pub struct Cleared {
    pub addrs: IfaceAddrs,
    pub any: bool,
}

impl AddrOrigin {
    pub fn is_slaac(self) -> bool
        ensures { result ≡ is_slaac self }
    {
        matches!(self, AddrOrigin::Slaac)
    }
}

impl IfaceAddr {
    // As the application adds one.
    fn manual(cidr: Ipv6Cidr) -> IfaceAddr
        ensures { result ≡ manual_addr cidr }
    {
        IfaceAddr {
            cidr,
            origin: AddrOrigin::Manual,
            preferred: Preferred::Always,
        }
    }
}

impl IfaceAddrs {
    // A table with no addresses.
    pub fn new() -> IfaceAddrs
        ensures { result ≡ empty_addrs }
    {
        let blank = IfaceAddr::manual(Ipv6Cidr {
            address: Ipv6Addr { hi: 0, lo: 0 },
            prefix_len: 0,
        });
        IfaceAddrs {
            slots: [blank; IFACE_ADDR_COUNT],
            len: 0,
        }
    }

    // Where an address stands, whoever put it there.
    fn place_of(&self, cidr: Ipv6Cidr) -> Option<usize>
        ensures { result ≡ place_of (is_addr cidr) (addrs_of self.now) }
    {
        let count = count_of(self.len, IFACE_ADDR_COUNT);
        position(&self.slots[..count], |entry| entry.cidr == cidr)
    }

    // Where the first link-local address stands.
    fn first_local(&self) -> Option<usize>
        ensures { result ≡ place_of is_local (addrs_of self.now) }
    {
        let count = count_of(self.len, IFACE_ADDR_COUNT);
        position(
            &self.slots[..count],
            |entry| entry.cidr.address.is_link_local(),
        )
    }

    // The application assigns an address.
    pub fn add_ip_addr(self, iface: u8, cidr: Ipv6Cidr) -> Added
        ensures { AddedTo self iface cidr result }
    {
        if let Err(why) = check_prefix(iface, cidr) {
            return Added {
                addrs: self,
                outcome: Err(why),
            };
        }
        if self.place_of(cidr).is_some() {
            return Added {
                addrs: self,
                outcome: Err(Refusal::Duplicate),
            };
        }
        let count = count_of(self.len, IFACE_ADDR_COUNT);
        if count == IFACE_ADDR_COUNT {
            return Added {
                addrs: self,
                outcome: Err(Refusal::Full),
            };
        }
        let mut addrs = self;
        addrs.slots[count] = IfaceAddr::manual(cidr);
        addrs.len = count + 1;
        Added {
            addrs,
            outcome: Ok(()),
        }
    }

    // The address of an expired prefix goes, and later ones move down. Only one that SLAAC installed.
    pub fn drop_addr(self, cidr: Ipv6Cidr) -> IfaceAddrs
        ensures { result ≡ with_addrs self (drop_addr cidr (addrs_of self)) }
    {
        let count = count_of(self.len, IFACE_ADDR_COUNT);
        let mut addrs = IfaceAddrs { len: count, ..self };
        if let Some(at) = self.place_of(cidr) {
            if self.slots[at].origin.is_slaac() {
                remove(&mut addrs.slots, count, at);
                addrs.len = count - 1;
            }
        }
        addrs
    }

    // SLAAC's addresses go, and the others keep their order.
    pub fn clear_slaac(self) -> Cleared
        ensures { result ≡ clear_addrs self }
    {
        let count = count_of(self.len, IFACE_ADDR_COUNT);
        let mut addrs = self;
        addrs.len = retain(&mut addrs.slots, count, |entry| !entry.origin.is_slaac());
        Cleared {
            addrs,
            any: addrs.len < count,
        }
    }

    // The first link-local address, if there is one.
    pub fn link_local_ipv6_address(self) -> Option<Ipv6Addr>
        ensures { LocalOf self result }
    {
        match self.first_local() {
            Some(at) => Some(self.slots[at].cidr.address),
            None => None,
        }
    }

    // The listing, entry by entry.
    pub fn at(self, index: usize) -> Option<IfaceAddr>
        ensures { AddrListed self index result }
    {
        let count = count_of(self.len, IFACE_ADDR_COUNT);
        self.slots[..count].get(index).copied()
    }
}
