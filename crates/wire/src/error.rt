// The refusals of document 01, a variant for each cause, and the tests that several calls share.
ghost use Rattle.std.specs.Prelude.{◌≡◌, [], ◌∷◌};
ghost use Rattle.wire.specs.Refusals.{number_of, not_unicast, iface_rows, time_rows, key_rows, fill_rows, Tested};

use crate::ethernet::HardwareAddress;
use crate::ipv6::Ipv6Addr;
use time::Instant;

// Interfaces are numbered from 0; this is the last.
pub const LAST_IFACE: u8 = 3;

// The latest time that a call may name: 2^62 ms.
pub const LATEST: u64 = 0x4000_0000_0000_0000;

#[derive(Debug, Clone, Copy, PartialEq, Eq)]
pub enum Refusal {
    // A malformed option.
    Malformed,
    // A neighbour's address or hardware address that is not unicast.
    NotUnicast,
    // A time above 2^62.
    TooLate,
    // No room to write an option at the place.
    NoRoom,
    // No advertisement: under 16 bytes, another type, or a code that is not 0.
    NotAdvertisement,
    // An advertisement whose source is not link-local.
    NotLinkLocal,
    // An interface above 3.
    NoSuchIface,
    // The application adds to a full table.
    Full,
    // The application adds what is there already.
    Duplicate,
    // The application's prefix length is above 128.
    PrefixTooLong,
}

impl Refusal {
    pub fn number(self) -> u8
        ensures { result ≡ number_of self }
    {
        match self {
            Refusal::Malformed => 1,
            Refusal::NotUnicast => 2,
            Refusal::TooLate => 3,
            Refusal::NoRoom => 4,
            Refusal::NotAdvertisement => 5,
            Refusal::NotLinkLocal => 6,
            Refusal::NoSuchIface => 7,
            Refusal::Full => 8,
            Refusal::Duplicate => 9,
            Refusal::PrefixTooLong => 14,
        }
    }
}

// An interface's own number.
pub fn check_iface(iface: u8) -> Result<(), Refusal>
    ensures { Tested (iface_rows iface) result }
{
    if iface > LAST_IFACE {
        return Err(Refusal::NoSuchIface);
    }
    Ok(())
}

// A time, then the interface.
pub fn check_time(at: Instant, iface: u8) -> Result<(), Refusal>
    ensures { Tested (time_rows at iface) result }
{
    if at.0 > LATEST {
        return Err(Refusal::TooLate);
    }
    check_iface(iface)
}

fn check_unicast(addr: Ipv6Addr) -> Result<(), Refusal>
    ensures { Tested (not_unicast addr ∷ []) result }
{
    if addr.is_unicast() {
        return Ok(());
    }
    Err(Refusal::NotUnicast)
}

// The interface, then a neighbour's address.
pub fn check_key(iface: u8, addr: Ipv6Addr) -> Result<(), Refusal>
    ensures { Tested (key_rows iface addr) result }
{
    check_iface(iface)?;
    check_unicast(addr)
}

// A time, the interface, a neighbour's address, its hardware address.
pub fn check_fill(
    at: Instant,
    iface: u8,
    addr: Ipv6Addr,
    hardware_addr: HardwareAddress,
) -> Result<(), Refusal>
    ensures { Tested (fill_rows at iface addr hardware_addr) result }
{
    if at.0 > LATEST {
        return Err(Refusal::TooLate);
    }
    check_key(iface, addr)?;
    if hardware_addr.is_unicast() {
        return Ok(());
    }
    Err(Refusal::NotUnicast)
}
