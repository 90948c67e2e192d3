// The lines of a call file: their fields, parted by one space each, and what they are read as. What cannot be read is `None`.
#![tactic(auto)]

use text::address::{read_address, read_hardware, read_message};
use text::number::read_number;
use text::scan::split;
use time::Instant;
use wire::ethernet::HardwareAddress;
use wire::ipv6::Ipv6Addr;

// The most bytes that the digits of a line can say.
pub const BYTES_MAX: usize = 2048;

// The fields of a line that are not read yet; `None` after the last.
#[derive(Clone, Copy)]
pub struct Fields<'a> {
    rest: Option<&'a [u8]>,
}

impl<'a> Fields<'a> {
    pub fn new(line: &'a [u8]) -> Fields<'a> {
        Fields { rest: Some(line) }
    }

    pub fn field(&mut self) -> Option<&'a [u8]> {
        let rest = self.rest.take()?;
        let Some((field, after)) = split(rest) else {
            return Some(rest);
        };
        self.rest = Some(after);
        Some(field)
    }

    // Whether there is no field more.
    pub fn is_empty(&self) -> bool {
        self.rest.is_none()
    }

    pub fn number(&mut self) -> Option<u64> {
        read_number(self.field()?)
    }

    pub fn byte(&mut self) -> Option<u8> {
        u8::try_from(self.number()?).ok()
    }

    pub fn word(&mut self) -> Option<u32> {
        u32::try_from(self.number()?).ok()
    }

    // A length of which any number is read; each above 128 is too long.
    pub fn any_len(&mut self) -> Option<u8> {
        Some(u8::try_from(self.number()?).unwrap_or(u8::MAX))
    }

    pub fn instant(&mut self) -> Option<Instant> {
        Some(Instant(self.number()?))
    }

    pub fn deadline(&mut self) -> Option<Option<Instant>> {
        match self.field()? {
            b"-" => Some(None),
            field => Some(Some(Instant(read_number(field)?))),
        }
    }

    pub fn address(&mut self) -> Option<Ipv6Addr> {
        read_address(self.field()?)
    }

    pub fn hardware(&mut self) -> Option<HardwareAddress> {
        read_hardware(self.field()?)
    }

    // Bytes, read into the front of the room that is lent.
    pub fn bytes<'r>(&mut self, room: &'r mut [u8]) -> Option<&'r mut [u8]> {
        let len = match self.field()? {
            b"-" => 0,
            field => read_message(field, room)?,
        };
        room.get_mut(..len)
    }

    // A link's state.
    pub fn up(&mut self) -> Option<bool> {
        match self.field()? {
            b"up" => Some(true),
            b"down" => Some(false),
            _ => None,
        }
    }
}
