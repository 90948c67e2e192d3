// IPv6 addresses and prefixes (RFC 4291): two halves of 64 bits in tables, sixteen bytes at the border.
ghost use Rattle.std.specs.Prelude.{◌≡◌};
ghost use Rattle.wire.specs.Rfc4291.{address_at, address_bytes, is_all_routers, is_multicast, is_link_local, is_unspecified, is_unicast, clear_low, mask_of};
ghost use Rattle.wire.specs.Rfc2464.{is_formed_from, Forms};

use crate::ethernet::HardwareAddress;

#[derive(Debug, Clone, Copy, PartialEq, Eq)]
pub struct Ipv6Addr {
    pub hi: u64,
    pub lo: u64,
}

#[derive(Debug, Clone, Copy, PartialEq, Eq)]
pub struct Ipv6Cidr {
    pub address: Ipv6Addr,
    pub prefix_len: u8,
}

// The address that a prefix forms, if any: an enum of its own and no Option, as document 01 has it.
#[derive(Clone, Copy)]
pub enum Formed {
    Nothing,
    Addr(Ipv6Cidr),
}

// The length of a prefix that forms an address.
const FORMING_LEN: u8 = 64;

// The bits of an address, and of a half.
const ADDR_BITS: u8 = 128;

const HALF_BITS: u8 = 64;

// ff02::2
pub const LINK_LOCAL_ALL_ROUTERS: [u8; 16] = [0xff, 0x02, 0, 0, 0, 0, 0, 0, 0, 0, 0, 0, 0, 0, 0, 2];

impl Ipv6Addr {
    pub fn from_octets(octets: &[u8; 16]) -> Ipv6Addr
        ensures { result ≡ address_at octets.now 0 }
    {
        let (halves, _) = octets.as_chunks::<8>();
        Ipv6Addr {
            hi: u64::from_be_bytes(halves[0]),
            lo: u64::from_be_bytes(halves[1]),
        }
    }

    #[tactic(auto, using(crate::proofs::Words::sent64))]
    pub fn octets(self) -> [u8; 16]
        ensures { result ≡ address_bytes self }
    {
        let mut octets = [0; 16];
        octets[..8].copy_from_slice(&self.hi.to_be_bytes());
        octets[8..].copy_from_slice(&self.lo.to_be_bytes());
        octets
    }

    // ff00::/8
    pub fn is_multicast(self) -> bool
        ensures { result ≡ is_multicast self }
    {
        self.hi >> 56 == 0xff
    }

    // fe80::/10
    pub fn is_link_local(self) -> bool
        ensures { result ≡ is_link_local self }
    {
        self.hi >> 54 == 0x3fa
    }

    // The bits past the prefix length cleared; above 128 there are none.
    pub fn mask(self, prefix_len: u8) -> Ipv6Addr
        ensures { result ≡ mask_of prefix_len self }
    {
        Ipv6Addr {
            hi: clear_low(self.hi, HALF_BITS.saturating_sub(prefix_len)),
            lo: clear_low(self.lo, ADDR_BITS.saturating_sub(prefix_len)),
        }
    }

    // ::
    pub fn is_unspecified(self) -> bool
        ensures { result ≡ is_unspecified self }
    {
        self.hi == 0 && self.lo == 0
    }

    pub fn is_unicast(self) -> bool
        ensures { result ≡ is_unicast self }
    {
        !self.is_multicast() && !self.is_unspecified()
    }

    // Whether its sixteen bytes are those of ff02::2.
    pub fn is_all_routers(self) -> bool
        ensures { result ≡ is_all_routers self }
    {
        self.octets() == LINK_LOCAL_ALL_ROUTERS
    }

    // Whether its last eight bytes are the hardware address's EUI-64, ff fe in the middle among them.
    pub fn is_formed_from(self, hardware_addr: HardwareAddress) -> bool
        ensures { result ≡ is_formed_from hardware_addr self }
    {
        self.lo.to_be_bytes() == hardware_addr.as_eui_64()
    }
}

impl Ipv6Cidr {
    // Only a prefix of 64 bits forms an address: its first eight bytes, and then EUI-64.
    #[tactic(auto, unfolding(crate::specs::Rfc2464::formed_of))]
    pub fn from_link_prefix(self, hardware_addr: HardwareAddress) -> Formed
        ensures { Forms hardware_addr self result }
    {
        if self.prefix_len != FORMING_LEN {
            return Formed::Nothing;
        }
        let address = Ipv6Addr {
            lo: u64::from_be_bytes(hardware_addr.as_eui_64()),
            ..self.address
        };
        Formed::Addr(Ipv6Cidr { address, ..self })
    }
}

// A half with its last `count` bits cleared. A shift takes fewer than 64.
fn clear_low(half: u64, count: u8) -> u64
    ensures { result ≡ clear_low count half }
{
    if HALF_BITS <= count {
        return 0;
    }
    half >> count << count
}
