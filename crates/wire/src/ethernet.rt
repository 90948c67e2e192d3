// Ethernet addresses of 48 bits, and the interface identifier made of one (RFC 2464).
ghost use Rattle.std.specs.Prelude.{◌≡◌};
ghost use Rattle.wire.specs.Rfc2464.{hardware_at, hardware_bytes, is_unicast_hardware, flipped, eui_bytes};

#[derive(Debug, Clone, Copy, PartialEq, Eq)]
pub struct HardwareAddress {
    pub hi: u16,
    pub lo: u32,
}

// The bit of value 0x02 turned over.
#[tactic(auto, using(crate::proofs::Words::turned_over))]
fn flip(octet: u8) -> u8
    ensures { result ≡ flipped octet }
{
    octet ^ 0x02
}

impl HardwareAddress {
    pub fn from_octets(octets: &[u8; 6]) -> HardwareAddress
        ensures { result ≡ hardware_at octets.now 0 }
    {
        let [a, b, c, d, e, f] = *octets;
        HardwareAddress {
            hi: u16::from_be_bytes([a, b]),
            lo: u32::from_be_bytes([c, d, e, f]),
        }
    }

    pub fn octets(self) -> [u8; 6]
        ensures { result ≡ hardware_bytes self }
    {
        let [a, b] = self.hi.to_be_bytes();
        let [c, d, e, f] = self.lo.to_be_bytes();
        [a, b, c, d, e, f]
    }

    // The low bit of the first byte is 0.
    pub fn is_unicast(self) -> bool
        ensures { result ≡ is_unicast_hardware self }
    {
        self.octets()[0] & 1 == 0
    }

    // ff fe stands in the middle.
    pub fn as_eui_64(self) -> [u8; 8]
        ensures { result ≡ eui_bytes self }
    {
        let [a, b, c, d, e, f] = self.octets();
        [flip(a), b, c, 0xff, 0xfe, d, e, f]
    }
}
