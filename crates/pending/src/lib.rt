// The packets that wait for a neighbour's resolution: 32-bit handles under the keys of the neighbour cache, oldest first.
#![tactic(auto)]

ghost use Rattle.std.specs.Prelude.{◌≡◌, [], ◌∷◌, false, Ok};
ghost use Rattle.std.specs.Fn.{FnReturnsAt};
ghost use Rattle.table.specs.Table.{first_of};
ghost use Rattle.neighbor.specs.CacheCalls.{key};
ghost use Rattle.neighbor.specs.NeighborRules.{is_key};
ghost use Rattle.pending.specs.QueueRules.{key_of, has_key, awaits, awaits_in};
ghost use Rattle.pending.specs.QueueCalls.{empty, handles_of, PushedTo, ReleasedTo, OrphansPurged, PurgesBy, PurgedTo, WaitingAt};

use neighbor::{Entry, NEIGHBOR_CACHE_COUNT, NeighborCache, State};
use table::count_of;
use wire::error::{Refusal, check_iface};
use wire::ipv6::Ipv6Addr;

// How many packets the queue holds, over all interfaces.
pub const PENDING_QUEUE_COUNT: usize = 8;

// A packet that waits for its key, the interface and the address.
#[derive(Clone, Copy)]
pub struct PendingPacket {
    pub iface: u8,
    pub addr: Ipv6Addr,
    pub handle: u32,
}

// The oldest packet stands first. Fixed memory: an array, and a count, which may be above its size (document 01).
#[derive(Clone, Copy)]
pub struct PendingQueue {
    pub slots: [PendingPacket; PENDING_QUEUE_COUNT],
    pub len: usize,
}

// Handles that were dropped, in queue order; past the count are zeros.
#[derive(Clone, Copy)]
pub struct Handles {
    pub slots: [u32; PENDING_QUEUE_COUNT],
    pub len: usize,
}

// What a push leaves. States go by value (document 01), so its answer stands beside.
#[derive(Clone, Copy)]
pub struct Pushed {
    pub queue: PendingQueue,
    // The handle of the oldest packet, if that was dropped to make room.
    pub answer: Result<Option<u32>, Refusal>,
}

#[derive(Clone, Copy)]
pub struct Released {
    pub queue: PendingQueue,
    // The packet that was taken out to be sent, if one waited.
    pub answer: Result<Option<u32>, Refusal>,
}

// What a purge leaves and what it dropped. A purge that is carried out puts the queue in as slots and count: whole, in front of the
// handles, it would be copied once more on its way out.
#[derive(Clone, Copy)]
pub struct Purged {
    pub queue: PendingQueue,
    pub handles: Handles,
    pub outcome: Result<(), Refusal>,
}

// Whether packets go on waiting for an entry in this state.
fn is_awaited(state: State) -> bool
    ensures { result ≡ awaits state }
{
    !matches!(state, State::Stale { .. })
}

// Keeps the packets that stay, in order. The answer is how many they are, and the handles of the others. The slots are lent: in the
// answer they would be copied once more.
fn purge<F: Fn(&PendingPacket) -> bool>(
    slots: &mut [PendingPacket; PENDING_QUEUE_COUNT],
    len: usize,
    stays: F,
) -> (usize, Handles)
    requires { F.IsAlwaysCallable stays }
    ensures { PurgesBy (λ x b. FnReturnsAt F.Fn stays x b) (record { slots = slots.old; len = len }) (record { queue = record { slots = slots.new; len = result.0 }; handles = result.1; outcome = Ok tt }) }
{
    let count = count_of(len, PENDING_QUEUE_COUNT);
    let mut handles = [0; PENDING_QUEUE_COUNT];
    let mut kept = 0;
    let mut dropped = 0;
    // By index, since the loop writes into the slots that it reads.
    for i in 0..count {
        let packet = slots[i];
        if stays(&packet) {
            slots[kept] = packet;
            kept += 1;
        } else {
            handles[dropped] = packet.handle;
            dropped += 1;
        }
    }
    let handles = Handles {
        slots: handles,
        len: dropped,
    };
    (kept, handles)
}

impl PendingPacket {
    #[tactic(auto, unfolding(neighbor::specs::NeighborRules::same_key))]
    fn has_key(&self, iface: u8, addr: Ipv6Addr) -> bool
        ensures { result ≡ has_key (key iface addr) self.now }
    {
        self.iface == iface && self.addr == addr
    }

    // Whether the first entry of its key is one that packets wait for.
    fn is_awaited(&self, neighbors: &[Entry]) -> bool
        ensures { result ≡ first_of (is_key (key_of self.now)) awaits_in false neighbors.now }
    {
        neighbors
            .iter()
            .find(|entry| entry.has_key(self.iface, self.addr))
            .is_some_and(|entry| is_awaited(entry.state))
    }
}

impl Handles {
    pub fn new() -> Handles
        ensures { result ≡ handles_of [] }
    {
        Handles {
            slots: [0; PENDING_QUEUE_COUNT],
            len: 0,
        }
    }

    pub fn one(handle: u32) -> Handles
        ensures { result ≡ handles_of (handle ∷ []) }
    {
        let mut handles = Handles::new();
        handles.slots[0] = handle;
        handles.len = 1;
        handles
    }
}

impl PendingQueue {
    pub fn new() -> PendingQueue
        ensures { result ≡ empty }
    {
        let blank = PendingPacket {
            iface: 0,
            addr: Ipv6Addr { hi: 0, lo: 0 },
            handle: 0,
        };
        PendingQueue {
            slots: [blank; PENDING_QUEUE_COUNT],
            len: 0,
        }
    }

    // Queues a packet that waits for its key to resolve.
    pub fn push(mut self, iface: u8, addr: Ipv6Addr, handle: u32) -> Pushed
        ensures { PushedTo self iface addr handle result }
    {
        if let Err(why) = check_iface(iface) {
            return Pushed {
                queue: self,
                answer: Err(why),
            };
        }
        let packet = PendingPacket {
            iface,
            addr,
            handle,
        };
        let count = count_of(self.len, PENDING_QUEUE_COUNT);
        if count < PENDING_QUEUE_COUNT {
            self.slots[count] = packet;
            self.len = count + 1;
            return Pushed {
                queue: self,
                answer: Ok(None),
            };
        }
        let oldest = self.slots[0];
        self.slots.copy_within(1.., 0);
        self.slots[PENDING_QUEUE_COUNT - 1] = packet;
        self.len = PENDING_QUEUE_COUNT;
        Pushed {
            queue: self,
            answer: Ok(Some(oldest.handle)),
        }
    }

    // Takes out the oldest packet of a key; later ones move down.
    pub fn release(mut self, iface: u8, addr: Ipv6Addr) -> Released
        ensures { ReleasedTo self iface addr result }
    {
        if let Err(why) = check_iface(iface) {
            return Released {
                queue: self,
                answer: Err(why),
            };
        }
        let count = count_of(self.len, PENDING_QUEUE_COUNT);
        let found = table::position(&self.slots[..count], |packet| packet.has_key(iface, addr));
        let Some(place) = found else {
            return Released {
                queue: self,
                answer: Ok(None),
            };
        };
        let packet = self.slots[place];
        table::remove(&mut self.slots, count, place);
        self.len = count - 1;
        Released {
            queue: self,
            answer: Ok(Some(packet.handle)),
        }
    }

    // Drops the packets that nothing will release: their key has no entry, or a stale one.
    pub fn purge_orphans(self, cache: NeighborCache) -> Purged
        ensures { OrphansPurged self cache result }
    {
        let neighbors = &cache.slots[..count_of(cache.len, NEIGHBOR_CACHE_COUNT)];
        let mut slots = self.slots;
        let (len, handles) = purge(&mut slots, self.len, |packet| packet.is_awaited(neighbors));
        Purged {
            queue: PendingQueue { slots, len },
            handles,
            outcome: Ok(()),
        }
    }

    // Drops the packets of an interface.
    pub fn purge_iface(self, iface: u8) -> Purged
        ensures { PurgedTo self iface result }
    {
        if let Err(why) = check_iface(iface) {
            return Purged {
                queue: self,
                handles: Handles::new(),
                outcome: Err(why),
            };
        }
        let mut slots = self.slots;
        let (len, handles) = purge(&mut slots, self.len, |packet| packet.iface != iface);
        Purged {
            queue: PendingQueue { slots, len },
            handles,
            outcome: Ok(()),
        }
    }

    // The packet at an index, for a listing.
    pub fn at(self, index: usize) -> Option<PendingPacket>
        ensures { WaitingAt self index result }
    {
        let count = count_of(self.len, PENDING_QUEUE_COUNT);
        self.slots[..count].get(index).copied()
    }
}
