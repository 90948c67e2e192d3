// Single calls that look, and change nothing. Where the library lists by index, the index goes one past the last slot.
#![tactic(auto)]

use answers::Answers;
use fields::Fields;
use iface::addr::{IFACE_ADDR_COUNT, IfaceAddrs};
use iface::route::{ROUTE_COUNT, Routes};
use neighbor::{NEIGHBOR_CACHE_COUNT, NeighborCache, State};
use pending::{PENDING_QUEUE_COUNT, PendingQueue};
use report::listing::{addr_fields, prefix_fields, route_fields, router_fields};
use slaac::{Phase, SLAAC_PREFIX_COUNT, SLAAC_ROUTER_COUNT, Slaac};
use text::print::Text;
use wire::error::check_iface;
use wire::ipv6::Ipv6Addr;
use world::{IfaceState, World};

// A call, with what its line says: an interface, and a neighbour's address.
#[derive(Clone, Copy)]
enum Call {
    Lookup(u8, Ipv6Addr),
    Get(u8, Ipv6Addr),
    Cache,
    Neighbors,
    Queue,
    Routes,
    Destinations,
    Now,
    Slaac(u8),
    Prefixes(u8),
    Routers(u8),
    Addresses(u8),
    Source(u8),
}

// A call by its word.
fn read_fields(fields: &mut Fields) -> Option<Call> {
    let call = match fields.field()? {
        b"lookup" => Call::Lookup(fields.byte()?, fields.address()?),
        b"get" => Call::Get(fields.byte()?, fields.address()?),
        b"cache" => Call::Cache,
        b"neighbors" => Call::Neighbors,
        b"queue" => Call::Queue,
        b"routes" => Call::Routes,
        b"destinations" => Call::Destinations,
        b"now" => Call::Now,
        b"slaac" => Call::Slaac(fields.byte()?),
        b"prefixes" => Call::Prefixes(fields.byte()?),
        b"routers" => Call::Routers(fields.byte()?),
        b"addresses" => Call::Addresses(fields.byte()?),
        b"source" => Call::Source(fields.byte()?),
        _ => return None,
    };
    Some(call)
}

// A neighbour's state as the cache keeps it.
fn state_fields(state: State, out: &mut Text) {
    match state {
        State::Started => out.word(b" started"),
        State::Incomplete {
            probes_sent,
            retrans_at,
        } => {
            out.number_after(b" incomplete ", probes_sent as u64);
            out.field(retrans_at.0);
        }
        State::Reachable {
            hardware_addr,
            expires_at,
        } => {
            out.hardware_after(b" reachable ", hardware_addr);
            out.field(expires_at.0);
        }
        State::Stale { hardware_addr } => out.hardware_after(b" stale ", hardware_addr),
    }
}

// The entries as the cache keeps them.
fn cache(table: &NeighborCache, out: &mut Text) {
    let count = table.len.min(NEIGHBOR_CACHE_COUNT);
    out.number(count as u64);
    for entry in &table.slots[..count] {
        out.key(entry.iface, entry.addr);
        state_fields(entry.state, out);
    }
}

// How many there are, and what is printed of the entry at each index.
fn list<T, A: Fn(usize) -> Option<T>, P: Fn(T, &mut Text)>(
    len: usize,
    last: usize,
    out: &mut Text,
    at: A,
    print: P,
)
    requires at { A.IsAlwaysCallable at }
    requires print { P.IsAlwaysCallable print }
{
    out.number(len as u64);
    for i in 0..=last {
        if let Some(entry) = at(i) {
            print(entry, out);
        }
    }
}

// The entries as the application sees them.
fn neighbors(table: &NeighborCache, out: &mut Text) {
    let at = |i| table.at(i);
    list(table.len, NEIGHBOR_CACHE_COUNT, out, at, |seen, out| {
        out.key(seen.iface, seen.addr);
        out.word(b" ");
        out.neighbor_state(seen.state);
    });
}

fn queue(table: &PendingQueue, out: &mut Text) {
    let at = |i| table.at(i);
    list(table.len, PENDING_QUEUE_COUNT, out, at, |packet, out| {
        out.key(packet.iface, packet.addr);
        out.field(packet.handle as u64);
    });
}

// A route's interface, router, origin and end.
fn routes(table: &Routes, out: &mut Text) {
    let at = |i| table.at(i);
    list(table.len, ROUTE_COUNT, out, at, |entry, out| {
        out.number_after(b"; ", entry.iface as u64);
        out.word(b" ");
        route_fields(out, entry);
    });
}

// A route's interface, where it leads, and its router.
fn destinations(table: &Routes, out: &mut Text) {
    let at = |i| table.at(i);
    list(table.len, ROUTE_COUNT, out, at, |entry, out| {
        out.key(entry.iface, entry.cidr.address);
        out.field(entry.cidr.prefix_len as u64);
        out.address_after(b" ", entry.via_router);
    });
}

fn prefixes(learned: &Slaac, out: &mut Text) {
    let at = |i| learned.prefix_at(i);
    list(
        learned.prefix_count,
        SLAAC_PREFIX_COUNT,
        out,
        at,
        |entry, out| {
            out.word(b"; ");
            prefix_fields(out, entry);
        },
    );
}

fn routers(learned: &Slaac, out: &mut Text) {
    let at = |i| learned.router_at(i);
    list(
        learned.router_count,
        SLAAC_ROUTER_COUNT,
        out,
        at,
        |entry, out| {
            out.word(b"; ");
            router_fields(out, entry);
        },
    );
}

fn addresses(table: &IfaceAddrs, out: &mut Text) {
    let at = |i| table.at(i);
    list(table.len, IFACE_ADDR_COUNT, out, at, |entry, out| {
        out.word(b"; ");
        addr_fields(out, entry);
    });
}

fn source(table: &IfaceAddrs, out: &mut Text) {
    match table.link_local_ipv6_address() {
        None => out.word(b"nothing"),
        Some(local) => out.address_after(b"from ", local),
    }
}

fn slaac(learned: &Slaac, out: &mut Text) {
    if !learned.on {
        out.word(b"off");
        return;
    }
    match learned.discovery.phase {
        Phase::Start => out.word(b"start"),
        Phase::Discovering(retry) => out.number_after(b"discovering ", retry.0),
        Phase::Maintaining => out.word(b"maintaining"),
    }
    out.number_after(b" left ", learned.discovery.num_solicitations as u64);
    out.flag(b" sync ", learned.sync_required);
    out.flag(b" seen ", learned.state.routers_seen);
    out.flag(b" managed ", learned.state.managed);
    out.flag(b" other ", learned.state.other_config);
}

// The library lists the tables that it is handed. That there is no such interface is said here.
fn of_iface<F: FnOnce(&IfaceState, &mut Text)>(world: &World, iface: u8, out: &mut Text, print: F)
    requires { F.IsAlwaysCallable print }
{
    match check_iface(iface) {
        Err(why) => out.refused(why),
        Ok(()) => print(world.iface(iface), out),
    }
}

fn answer(world: &World, call: Call, out: &mut Text) {
    match call {
        Call::Lookup(iface, addr) => out.lookup(world.cache.lookup(iface, addr)),
        Call::Get(iface, addr) => out.got(world.cache.get(iface, addr)),
        Call::Cache => cache(&world.cache, out),
        Call::Neighbors => neighbors(&world.cache, out),
        Call::Queue => queue(&world.queue, out),
        Call::Routes => routes(&world.routes, out),
        Call::Destinations => destinations(&world.routes, out),
        Call::Now => out.number(lending::now(world.clock).0),
        Call::Slaac(iface) => of_iface(world, iface, out, |part, out| slaac(&part.slaac, out)),
        Call::Prefixes(iface) => {
            of_iface(world, iface, out, |part, out| prefixes(&part.slaac, out))
        }
        Call::Routers(iface) => of_iface(world, iface, out, |part, out| routers(&part.slaac, out)),
        Call::Addresses(iface) => {
            of_iface(world, iface, out, |part, out| addresses(&part.addrs, out))
        }
        Call::Source(iface) => of_iface(world, iface, out, |part, out| source(&part.addrs, out)),
    }
}

fn read_call(line: &[u8]) -> Option<Call> {
    let mut fields = Fields::new(line);
    let call = read_fields(&mut fields)?;
    fields.is_empty().then_some(call)
}

// Answers a line, if it is one of these, and says whether it was.
pub fn view_line(world: &World, line: &[u8], out: &mut Text) -> bool {
    let Some(call) = read_call(line) else {
        return false;
    };
    answer(world, call, out);
    true
}
