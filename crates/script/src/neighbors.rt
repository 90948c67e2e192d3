// The events on the neighbours. Each answers the neighbours after it.
ghost use Rattle.std.specs.Prelude.{◌≡◌};
ghost use Rattle.text.specs.Gathered.{IsSameBuffer};
ghost use Rattle.script.specs.CardRules.{CachedTo, start_cache, sweep_cache, fill_cache, remove_cache};

use crate::printed;
use neighbor::NeighborCache;
use text::print::Text;
use time::{Clock, Instant};
use wire::ethernet::HardwareAddress;
use wire::ipv6::Ipv6Addr;

// The program's interface.
pub const IFACE: u8 = 0;

pub fn start(cache: NeighborCache, time: u64, addr: Ipv6Addr, out: &mut Text) -> NeighborCache
    ensures cached { CachedTo (start_cache cache time addr) out.old result out.new }
    ensures same_buffer { IsSameBuffer out.old out.new }
{
    let left = cache.start_resolution(IFACE, addr);
    printed::change(out, time, left.outcome);
    left.cache
}

pub fn sweep(cache: NeighborCache, time: u64, out: &mut Text) -> NeighborCache
    ensures cached { CachedTo (sweep_cache cache time) out.old result out.new }
    ensures same_buffer { IsSameBuffer out.old out.new }
{
    let left = sweep::sweep_at(cache, Clock::new(Instant(time)), IFACE);
    printed::sweep(out, time, left.outcome, left.events);
    left.cache
}

pub fn fill(
    cache: NeighborCache,
    time: u64,
    addr: Ipv6Addr,
    hardware_addr: HardwareAddress,
    out: &mut Text,
) -> NeighborCache
    ensures cached { CachedTo (fill_cache cache time addr hardware_addr) out.old result out.new }
    ensures same_buffer { IsSameBuffer out.old out.new }
{
    let left = cache.fill(IFACE, addr, hardware_addr, Instant(time));
    printed::change(out, time, left.outcome);
    left.cache
}

// An absent neighbour is none to remove. Nothing is printed.
pub fn remove(cache: NeighborCache, addr: Ipv6Addr) -> NeighborCache
    ensures { result ≡ remove_cache cache addr }
{
    cache.remove(IFACE, addr).cache
}
