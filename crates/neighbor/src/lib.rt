// The neighbour cache: the map from (interface, address) to hardware address, and the resolutions on their way.
#![tactic(auto)]

ghost use Rattle.std.specs.Prelude.{◌<◌, ◌≡◌, min, IfSome};
ghost use Rattle.neighbor.specs.Answers.{answer_of, listed, listed_state};
ghost use Rattle.neighbor.specs.CacheCalls.{empty, entries, key, LookedUp, changed_to, put_in, StartTo, InsertTo, FillTo, ClearTo, GotBy, ListedAt, RemovedTo};
ghost use Rattle.neighbor.specs.NeighborRules.{before, cache_room, is_key, key_of, victim};
ghost use Rattle.neighbor.specs.Ranks.{rank_of};
ghost use Rattle.table.specs.Calls.{place_of};

use table::count_of;
use time::{Duration, Instant};
use wire::error::{Refusal, check_fill, check_iface, check_key};
use wire::ethernet::HardwareAddress;
use wire::ipv6::Ipv6Addr;

// How many neighbours the cache holds, over all interfaces.
pub const NEIGHBOR_CACHE_COUNT: usize = 16;

// What is known of a neighbour (RFC 4861, 7.3.2, as far as the Rust has it).
#[derive(Clone, Copy)]
pub enum State {
    // Asked for since the last sweep, so no timer is set.
    Started,
    // Solicitations are being sent, and no answer has come.
    Incomplete {
        probes_sent: u8,
        retrans_at: Instant,
    },
    // It answered, and packets go there.
    Reachable {
        hardware_addr: HardwareAddress,
        expires_at: Instant,
    },
    // It answered too long ago: a packet for it starts over.
    Stale {
        hardware_addr: HardwareAddress,
    },
}

// An entry: its key is the interface and the address.
#[derive(Clone, Copy)]
pub struct Entry {
    pub iface: u8,
    pub addr: Ipv6Addr,
    pub state: State,
}

// Fixed memory: an array, and a count, which may be above its size (document 01).
#[derive(Clone, Copy)]
pub struct NeighborCache {
    pub slots: [Entry; NEIGHBOR_CACHE_COUNT],
    pub len: usize,
}

// An answer to a lookup that is not refused.
#[derive(Clone, Copy)]
pub enum Answer {
    Found(HardwareAddress),
    Pending,
    NotFound,
}

// An entry as the application sees it.
#[derive(Clone, Copy)]
pub struct Neighbor {
    pub iface: u8,
    pub addr: Ipv6Addr,
    pub state: NeighborState,
}

#[derive(Clone, Copy)]
pub enum NeighborState {
    Incomplete,
    Reachable {
        hardware_addr: HardwareAddress,
        expires_at: Instant,
    },
    Stale {
        hardware_addr: HardwareAddress,
    },
}

// States go by value (document 01): what a call answers stands beside what it leaves.
#[derive(Clone, Copy)]
pub struct Changed {
    pub cache: NeighborCache,
    pub outcome: Result<(), Refusal>,
}

#[derive(Clone, Copy)]
pub struct Removed {
    pub cache: NeighborCache,
    pub taken: Result<Option<Neighbor>, Refusal>,
}

// What is evicted first: the first kind in this order, and of one kind the earliest time.
#[derive(Clone, Copy, PartialEq, Eq, PartialOrd, Ord)]
enum Rank {
    Stale,
    Reachable(u64),
    Incomplete(u64),
    Started,
}

impl State {
    fn rank(self) -> Rank
        ensures { result ≡ rank_of self }
    {
        match self {
            State::Stale { .. } => Rank::Stale,
            State::Reachable { expires_at, .. } => Rank::Reachable(expires_at.0),
            State::Incomplete { retrans_at, .. } => Rank::Incomplete(retrans_at.0),
            State::Started => Rank::Started,
        }
    }

    // Whether it is evicted before the other.
    #[tactic(auto, using(crate::proofs::Choosing::ranks_lt))]
    fn is_before(self, other: State) -> bool
        ensures { result ≡ before self other }
    {
        self.rank() < other.rank()
    }

    fn answer(self) -> Answer
        ensures { result ≡ answer_of self }
    {
        match self {
            State::Reachable { hardware_addr, .. } => Answer::Found(hardware_addr),
            State::Incomplete { .. } | State::Started => Answer::Pending,
            State::Stale { .. } => Answer::NotFound,
        }
    }

    fn listed(self) -> NeighborState
        ensures { result ≡ listed_state self }
    {
        match self {
            State::Started | State::Incomplete { .. } => NeighborState::Incomplete,
            State::Reachable {
                hardware_addr,
                expires_at,
            } => NeighborState::Reachable {
                hardware_addr,
                expires_at,
            },
            State::Stale { hardware_addr } => NeighborState::Stale { hardware_addr },
        }
    }
}

impl Entry {
    #[tactic(auto, unfolding(crate::specs::NeighborRules::same_key))]
    pub fn has_key(self, iface: u8, addr: Ipv6Addr) -> bool
        ensures { result ≡ is_key (key iface addr) self }
    {
        iface == self.iface && addr == self.addr
    }

    fn listed(self) -> Neighbor
        ensures { result ≡ listed self }
    {
        Neighbor {
            iface: self.iface,
            addr: self.addr,
            state: self.state.listed(),
        }
    }
}

impl NeighborCache {
    // How long an entry that was filled stays reachable.
    pub const ENTRY_LIFETIME: Duration = Duration(60_000);

    // How many solicitations one resolution sends before it gives up (RFC 4861, MAX_MULTICAST_SOLICIT).
    pub const MAX_MULTICAST_SOLICIT: u8 = 3;

    // The delay between solicitations (RFC 4861, RETRANS_TIMER).
    pub const RETRANS_TIMER: Duration = Duration(1_000);

    pub fn new() -> NeighborCache
        ensures { result ≡ empty }
    {
        let blank = Entry {
            iface: 0,
            addr: Ipv6Addr { hi: 0, lo: 0 },
            state: State::Started,
        };
        NeighborCache {
            slots: [blank; NEIGHBOR_CACHE_COUNT],
            len: 0,
        }
    }

    // The time is not looked at: an entry past its time is found until a sweep.
    pub fn lookup(self, iface: u8, addr: Ipv6Addr) -> Result<Answer, Refusal>
        ensures { LookedUp self iface addr result }
    {
        check_key(iface, addr)?;
        match self.find(iface, addr) {
            Some(i) => Ok(self.slots[i].state.answer()),
            None => Ok(Answer::NotFound),
        }
    }

    // The first solicitation is the caller's to send. A sweep sets the timer, since this call has no clock.
    pub fn start_resolution(self, iface: u8, addr: Ipv6Addr) -> Changed
        ensures { StartTo self iface addr result }
    {
        if let Err(why) = check_key(iface, addr) {
            return Changed {
                cache: self,
                outcome: Err(why),
            };
        }
        self.insert_state(Entry {
            iface,
            addr,
            state: State::Started,
        })
    }

    pub fn fill(
        self,
        iface: u8,
        addr: Ipv6Addr,
        hardware_addr: HardwareAddress,
        now: Instant,
    ) -> Changed
        ensures { FillTo self iface addr hardware_addr now result }
    {
        if let Err(why) = check_fill(now, iface, addr, hardware_addr) {
            return Changed {
                cache: self,
                outcome: Err(why),
            };
        }
        self.insert_state(Entry {
            iface,
            addr,
            state: State::Reachable {
                hardware_addr,
                expires_at: now.add(Self::ENTRY_LIFETIME),
            },
        })
    }

    // For an application that knows the neighbour. It expires like any other, so it has to come again.
    pub fn insert(
        self,
        iface: u8,
        addr: Ipv6Addr,
        hardware_addr: HardwareAddress,
        expires_at: Instant,
    ) -> Changed
        ensures { InsertTo self iface addr hardware_addr expires_at result }
    {
        if let Err(why) = check_fill(expires_at, iface, addr, hardware_addr) {
            return Changed {
                cache: self,
                outcome: Err(why),
            };
        }
        self.insert_state(Entry {
            iface,
            addr,
            state: State::Reachable {
                hardware_addr,
                expires_at,
            },
        })
    }

    pub fn get(self, iface: u8, addr: Ipv6Addr) -> Result<Option<Neighbor>, Refusal>
        ensures { GotBy self iface addr result }
    {
        check_iface(iface)?;
        match self.find(iface, addr) {
            Some(i) => Ok(Some(self.slots[i].listed())),
            None => Ok(None),
        }
    }

    // The entry at an index, for a listing.
    pub fn at(self, index: usize) -> Option<Neighbor>
        ensures { ListedAt self index result }
    {
        let count = count_of(self.len, NEIGHBOR_CACHE_COUNT);
        self.slots[..count].get(index).map(|entry| entry.listed())
    }

    // What stood last fills the hole.
    pub fn remove(mut self, iface: u8, addr: Ipv6Addr) -> Removed
        ensures { RemovedTo self iface addr result }
    {
        if let Err(why) = check_iface(iface) {
            return Removed {
                cache: self,
                taken: Err(why),
            };
        }
        let Some(i) = self.find(iface, addr) else {
            return Removed {
                cache: self,
                taken: Ok(None),
            };
        };
        let taken = self.slots[i].listed();
        let count = count_of(self.len, NEIGHBOR_CACHE_COUNT);
        self.slots[i] = self.slots[count - 1];
        self.len = count - 1;
        Removed {
            cache: self,
            taken: Ok(Some(taken)),
        }
    }

    // Removes an interface's entries; the others keep their order.
    pub fn clear_iface(mut self, iface: u8) -> Changed
        ensures { ClearTo self iface result }
    {
        if let Err(why) = check_iface(iface) {
            return Changed {
                cache: self,
                outcome: Err(why),
            };
        }
        let count = count_of(self.len, NEIGHBOR_CACHE_COUNT);
        self.len = table::retain(&mut self.slots, count, |entry| iface != entry.iface);
        Changed {
            cache: self,
            outcome: Ok(()),
        }
    }

    // The place of the key's entry.
    fn find(&self, iface: u8, addr: Ipv6Addr) -> Option<usize>
        ensures place { result ≡ place_of (is_key (key iface addr)) (entries self.now) }
        ensures within { IfSome result (λ i. i < min self.now.len cache_room) }
    {
        let count = count_of(self.len, NEIGHBOR_CACHE_COUNT);
        table::position(&self.slots[..count], |entry| entry.has_key(iface, addr))
    }

    // Puts an entry over that of its key; else at the end; else, in a full cache, over the one that is evicted.
    fn insert_state(mut self, entry: Entry) -> Changed
        ensures { result ≡ changed_to (put_in self (key_of entry) entry.state) }
    {
        let count = count_of(self.len, NEIGHBOR_CACHE_COUNT);
        let (at, len) = match self.find(entry.iface, entry.addr) {
            Some(i) => (i, count),
            None if count < NEIGHBOR_CACHE_COUNT => (count, count + 1),
            None => (evicted(&self.slots), count),
        };
        self.slots[at] = entry;
        self.len = len;
        Changed {
            cache: self,
            outcome: Ok(()),
        }
    }
}

// The index that a full cache gives up: what can be had again at once first, a resolution last, since packets wait on it. No
// `min_by_key`: it answers an Option, and the table is never empty.
fn evicted(slots: &[Entry; NEIGHBOR_CACHE_COUNT]) -> usize
    ensures { (result ≡ victim slots.now) × (result < cache_room) }
{
    let mut index = 0;
    for (i, entry) in slots.iter().enumerate() {
        if entry.state.is_before(slots[index].state) {
            index = i;
        }
    }
    index
}
