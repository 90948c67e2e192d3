// Text that is gathered in a buffer. What there is no room for is cut.
ghost use Rattle.std.specs.Prelude.{◌≡◌, ◌∷◌, []};
ghost use Rattle.text.specs.Gathered.{Adds, IsCleared, IsSameBuffer, gathered};
ghost use Rattle.text.specs.Hex.{hexed};
ghost use Rattle.text.specs.Decimal.{decimal};
ghost use Rattle.wire.specs.Rfc4291.{address_bytes};
ghost use Rattle.wire.specs.Rfc2464.{hardware_bytes};

use crate::hex::{high, low};
use wire::ethernet::HardwareAddress;
use wire::ipv6::Ipv6Addr;

// A lent buffer, and the place in it after what is gathered.
#[derive(Drop)]
pub struct Text<'a> {
    pub buf: &'a mut [u8],
    pub at: usize,
}

impl Text<'_> {
    // What is gathered.
    pub fn as_bytes(&self) -> &[u8]
        ensures { result.now ≡ gathered self.now }
    {
        &self.buf[..self.at.min(self.buf.len())]
    }

    // Nothing is gathered any more; the buffer holds what it held.
    pub fn clear(&mut self)
        ensures cleared { IsCleared self.old self.new }
        ensures same_buffer { IsSameBuffer self.old self.new }
    {
        self.at = 0;
    }

    pub fn byte(&mut self, value: u8)
        ensures adds { Adds self.old (value ∷ []) self.new }
        ensures same_buffer { IsSameBuffer self.old self.new }
    {
        if self.at < self.buf.len() {
            self.buf[self.at] = value;
            self.at += 1;
        }
    }

    pub fn word(&mut self, bytes: &[u8])
        ensures adds { Adds self.old bytes.now self.new }
        ensures same_buffer { IsSameBuffer self.old self.new }
    {
        for value in bytes {
            self.byte(*value);
        }
    }

    // Bytes in hexadecimal.
    pub fn hexes(&mut self, bytes: &[u8])
        ensures adds { Adds self.old (hexed bytes.now) self.new }
        ensures same_buffer { IsSameBuffer self.old self.new }
    {
        for value in bytes {
            self.byte(high(*value));
            self.byte(low(*value));
        }
    }

    // A number in decimal, with no 0 in front.
    pub fn number(&mut self, value: u64)
        ensures adds { Adds self.old (decimal value) self.new }
        ensures same_buffer { IsSameBuffer self.old self.new }
    {
        let mut digits = [0u8; 20];
        let len = io::decimal(value, &mut digits);
        self.word(&digits[..len]);
    }

    pub fn address(&mut self, addr: Ipv6Addr)
        ensures adds { Adds self.old (hexed (address_bytes addr)) self.new }
        ensures same_buffer { IsSameBuffer self.old self.new }
    {
        self.hexes(&addr.octets());
    }

    pub fn hardware(&mut self, addr: HardwareAddress)
        ensures adds { Adds self.old (hexed (hardware_bytes addr)) self.new }
        ensures same_buffer { IsSameBuffer self.old self.new }
    {
        self.hexes(&addr.octets());
    }
}
