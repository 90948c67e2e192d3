// The header lines.
ghost use Rattle.std.specs.Prelude.{◌≡◌};
ghost use Rattle.text.specs.Fields.{fields};
ghost use Rattle.lines.specs.HeaderLines.{mac_of, count_of, static_of};

use text::address::{read_address, read_hardware};
use text::number::read_number;
use text::scan::split;
use wire::ethernet::HardwareAddress;
use wire::ipv6::Ipv6Cidr;

// `mac HARDWARE`
#[tactic(auto, using(crate::proofs::LineLaws::mac_one, crate::proofs::LineLaws::last_hardware))]
pub fn mac(line: &[u8]) -> Option<HardwareAddress>
    ensures { result ≡ mac_of (fields line.now) }
{
    let (first, rest) = split(line)?;
    if first == b"mac".as_slice() {
        read_hardware(rest)
    } else {
        None
    }
}

// `WORD N`
#[tactic(auto, using(crate::proofs::LineLaws::count_one, crate::proofs::LineLaws::last_number))]
pub fn counted(line: &[u8], word: &[u8]) -> Option<u64>
    ensures { result ≡ count_of word.now (fields line.now) }
{
    let (first, rest) = split(line)?;
    if first == word {
        read_number(rest)
    } else {
        None
    }
}

// `ADDRESS LENGTH`. A length that is no byte is above 128, and so is bad by the table's refusal too.
#[tactic(auto, using(crate::proofs::LineLaws::static_one, crate::proofs::LineLaws::last_number))]
pub fn address_line(line: &[u8]) -> Option<Ipv6Cidr>
    ensures { result ≡ static_of (fields line.now) }
{
    let (address, prefix_len) = split(line)?;
    let address = read_address(address)?;
    let prefix_len = u8::try_from(read_number(prefix_len)?).ok()?;
    Some(Ipv6Cidr {
        address,
        prefix_len,
    })
}
