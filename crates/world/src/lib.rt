// What single calls act on: four interfaces, and the neighbours, packets, routes and clock that they share.
#![tactic(auto)]

ghost use Rattle.std.specs.Prelude.{◌<◌};

use iface::addr::IfaceAddrs;
use iface::route::Routes;
use neighbor::NeighborCache;
use pending::PendingQueue;
use slaac::Slaac;
use time::{Clock, Instant};
use wire::ethernet::HardwareAddress;

const IFACE_COUNT: usize = 4;

// The most bytes of a buffer that are lent, and what it holds at first.
pub const LENT: usize = 2048;

pub const UNWRITTEN: u8 = 0xa5;

#[derive(Clone, Copy)]
pub struct IfaceState {
    pub slaac: Slaac,
    pub addrs: IfaceAddrs,
    pub up: bool,
}

#[derive(Clone, Copy)]
pub struct World {
    pub ifaces: [IfaceState; IFACE_COUNT],
    pub hardware_addr: HardwareAddress,
    pub cache: NeighborCache,
    pub queue: PendingQueue,
    pub routes: Routes,
    pub clock: Clock,
}

// Where an interface's state is kept. One above 3 is refused by the call that is given it, which hands back the last one's as it was.
fn place(iface: u8) -> usize
    ensures { result < 4 }
{
    (iface as usize).min(IFACE_COUNT - 1)
}

impl World {
    // SLAAC is on, the link is down, and the tables are empty. All interfaces have one hardware address.
    pub fn new(hardware_addr: HardwareAddress, first: u64) -> World {
        let iface = IfaceState {
            slaac: Slaac::new(),
            addrs: IfaceAddrs::new(),
            up: false,
        };
        World {
            ifaces: [iface; IFACE_COUNT],
            hardware_addr,
            cache: NeighborCache::new(),
            queue: PendingQueue::new(),
            routes: Routes::new(),
            clock: Clock::new(Instant(first)),
        }
    }

    pub fn iface(&self, iface: u8) -> &IfaceState {
        &self.ifaces[place(iface)]
    }

    pub fn iface_mut(&mut self, iface: u8) -> &mut IfaceState {
        &mut self.ifaces[place(iface)]
    }
}
