// Addresses and messages in hexadecimal.
ghost use Rattle.std.specs.Prelude.{◌≡◌};
ghost use Rattle.text.specs.Addresses.{octets_of, address_of, hardware_of, MessageRead};

use crate::hex::unhex;
use wire::ethernet::HardwareAddress;
use wire::ipv6::Ipv6Addr;

// So many bytes, of as many pairs of digits.
fn octets<const N: usize>(field: &[u8]) -> Option<[u8; N]>
    ensures { result ≡ octets_of N field.now }
{
    let mut octets = [0u8; N];
    if unhex(field, &mut octets)? == N {
        Some(octets)
    } else {
        None
    }
}

#[tactic(auto, unfolding(crate::specs::Addresses::address_of))]
pub fn read_address(field: &[u8]) -> Option<Ipv6Addr>
    ensures { result ≡ address_of field.now }
{
    Some(Ipv6Addr::from_octets(&octets(field)?))
}

#[tactic(auto, unfolding(crate::specs::Addresses::hardware_of))]
pub fn read_hardware(field: &[u8]) -> Option<HardwareAddress>
    ensures { result ≡ hardware_of field.now }
{
    Some(HardwareAddress::from_octets(&octets(field)?))
}

// A message for which out has room, read into the front of out. Of what is no message nothing is read.
pub fn read_message(field: &[u8], out: &mut [u8]) -> Option<usize>
    ensures { MessageRead field.now out.old result out.new }
{
    match unhex(field, out)? {
        0 => None,
        len => Some(len),
    }
}
