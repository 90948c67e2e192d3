// What an interface has: its addresses, and the routes that the interfaces share. The application adds to both, and SLAAC
// installs what it learned.
#![tactic(auto)]

ghost use Rattle.wire.specs.Refusals.{Tested};
ghost use Rattle.iface.specs.Answers.{prefix_rows};

pub mod addr;
pub mod route;

use wire::error::{Refusal, check_iface};
use wire::ipv6::Ipv6Cidr;

// The length of a prefix that is a whole address.
const MAX_PREFIX_LEN: u8 = 128;

// What the application's calls test of their arguments alone: the interface, then the prefix length.
fn check_prefix(iface: u8, cidr: Ipv6Cidr) -> Result<(), Refusal>
    ensures { Tested (prefix_rows iface cidr) result }
{
    check_iface(iface)?;
    if cidr.prefix_len > MAX_PREFIX_LEN {
        return Err(Refusal::PrefixTooLong);
    }
    Ok(())
}
