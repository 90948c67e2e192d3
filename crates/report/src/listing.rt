// The state, listed: a line with its count for each table, and a line for each entry.
ghost use Rattle.std.specs.Prelude.{ℕ, List, take};
ghost use Rattle.text.specs.Gathered.{Adds, IsSameBuffer};
ghost use Rattle.slaac.specs.LearnedRules.{prefixes_of, routers_of};
ghost use Rattle.iface.specs.AddressRules.{addrs_of};
ghost use Rattle.iface.specs.RouteRules.{routes_of};
ghost use Rattle.neighbor.specs.CacheCalls.{entries};
ghost use Rattle.report.specs.AnswerLines.{Prints};
ghost use Rattle.report.specs.StateLines.{heading_line, number_field, end_field, PutsFields, KeepsBuffer, ended, section, prefix_fields, router_fields, origin_field, preferred_field, addr_fields, route_origin_field, expiry_field, route_fields, neighbor_field, neighbor_fields, prefixes_text, routers_text, addresses_text, routes_text, neighbors_text, section_most};

use iface::addr::{AddrOrigin, IfaceAddr, IfaceAddrs, Preferred};
use iface::route::{Route, RouteOrigin, Routes};
use neighbor::{Entry, NeighborCache, State};
use slaac::{Prefix, Router, Slaac};
use table::count_of;
use text::print::Text;
use time::Expiry;

// A table's name and its count.
fn heading(out: &mut Text, name: &[u8], count: usize)
    ensures adds { Adds out.old (heading_line name.now count) out.new }
    ensures same_buffer { IsSameBuffer out.old out.new }
{
    out.word(name);
    out.number(count as u64);
    out.byte(b'\n');
}

// A table: its heading, and a line for each entry, with what `fields` puts of it.
fn section<T: Copy, F: Fn(&mut Text, T)>(
    out: &mut Text,
    name: &[u8],
    slots: &[T],
    len: usize,
    fields: F,
)
    requires { F.IsAlwaysCallable fields }
    ensures adds { (text : T → List ℕ) → PutsFields (λ t e t'. F.post fields t e tt t') text → Adds out.old (section name.now (ended text) (take len slots.now)) out.new }
    ensures same_buffer { KeepsBuffer (λ t e t'. F.post fields t e tt t') → IsSameBuffer out.old out.new }
{
    let count = count_of(len, slots.len());
    heading(out, name, count);
    for entry in &slots[..count] {
        fields(out, *entry);
        out.byte(b'\n');
    }
}

// A number as a further field.
pub fn number_field(out: &mut Text, value: u64)
    ensures adds { Adds out.old (number_field value) out.new }
    ensures same_buffer { IsSameBuffer out.old out.new }
{
    out.byte(b' ');
    out.number(value);
}

// When something ends, as a further field.
fn end_field(out: &mut Text, end: Expiry)
    ensures adds { Adds out.old (end_field end) out.new }
    ensures same_buffer { IsSameBuffer out.old out.new }
{
    match end {
        Expiry::At(time) => number_field(out, time.0),
        Expiry::Forever => out.word(b" forever"),
    }
}

// Prefix, length, preferred, valid.
pub fn prefix_fields(out: &mut Text, prefix: Prefix)
    ensures adds { Adds out.old (prefix_fields prefix) out.new }
    ensures same_buffer { IsSameBuffer out.old out.new }
{
    out.address(prefix.cidr.address);
    number_field(out, prefix.cidr.prefix_len as u64);
    end_field(out, prefix.preferred_until);
    end_field(out, prefix.valid_until);
}

pub fn prefixes(out: &mut Text, slaac: Slaac)
    ensures prints { Prints (prefixes_text (prefixes_of slaac)) (section_most 4) out.old out.new }
    ensures same_buffer { IsSameBuffer out.old out.new }
{
    section(
        out,
        b"prefixes ",
        &slaac.prefixes,
        slaac.prefix_count,
        prefix_fields,
    );
}

// Router, expiry.
pub fn router_fields(out: &mut Text, router: Router)
    ensures adds { Adds out.old (router_fields router) out.new }
    ensures same_buffer { IsSameBuffer out.old out.new }
{
    out.address(router.addr);
    number_field(out, router.valid_until.0);
}

pub fn routers(out: &mut Text, slaac: Slaac)
    ensures prints { Prints (routers_text (routers_of slaac)) (section_most 2) out.old out.new }
    ensures same_buffer { IsSameBuffer out.old out.new }
{
    section(
        out,
        b"routers ",
        &slaac.routers,
        slaac.router_count,
        router_fields,
    );
}

fn origin_field(out: &mut Text, origin: AddrOrigin)
    ensures adds { Adds out.old (origin_field origin) out.new }
    ensures same_buffer { IsSameBuffer out.old out.new }
{
    match origin {
        AddrOrigin::Manual => out.word(b" static"),
        AddrOrigin::Slaac => out.word(b" slaac"),
    }
}

fn preferred_field(out: &mut Text, preferred: Preferred)
    ensures adds { Adds out.old (preferred_field preferred) out.new }
    ensures same_buffer { IsSameBuffer out.old out.new }
{
    match preferred {
        Preferred::Always => out.word(b" -"),
        Preferred::Until(end) => end_field(out, end),
        Preferred::Never => out.word(b" never"),
    }
}

// Address, length, origin, preferred.
pub fn addr_fields(out: &mut Text, entry: IfaceAddr)
    ensures adds { Adds out.old (addr_fields entry) out.new }
    ensures same_buffer { IsSameBuffer out.old out.new }
{
    out.address(entry.cidr.address);
    number_field(out, entry.cidr.prefix_len as u64);
    origin_field(out, entry.origin);
    preferred_field(out, entry.preferred);
}

pub fn addresses(out: &mut Text, addrs: IfaceAddrs)
    ensures prints { Prints (addresses_text (addrs_of addrs)) (section_most 8) out.old out.new }
    ensures same_buffer { IsSameBuffer out.old out.new }
{
    section(out, b"addresses ", &addrs.slots, addrs.len, addr_fields);
}

// Beside `origin_field`: the Rust has a type of origin for each.
fn route_origin_field(out: &mut Text, origin: RouteOrigin)
    ensures adds { Adds out.old (route_origin_field origin) out.new }
    ensures same_buffer { IsSameBuffer out.old out.new }
{
    match origin {
        RouteOrigin::Manual => out.word(b" static"),
        RouteOrigin::Slaac => out.word(b" slaac"),
    }
}

fn expiry_field(out: &mut Text, expiry: Expiry)
    ensures adds { Adds out.old (expiry_field expiry) out.new }
    ensures same_buffer { IsSameBuffer out.old out.new }
{
    match expiry {
        Expiry::Forever => out.word(b" -"),
        Expiry::At(time) => number_field(out, time.0),
    }
}

// Via, origin, expiry.
pub fn route_fields(out: &mut Text, route: Route)
    ensures adds { Adds out.old (route_fields route) out.new }
    ensures same_buffer { IsSameBuffer out.old out.new }
{
    out.address(route.via_router);
    route_origin_field(out, route.origin);
    expiry_field(out, route.expires_at);
}

pub fn routes(out: &mut Text, table: Routes)
    ensures prints { Prints (routes_text (routes_of table)) (section_most 8) out.old out.new }
    ensures same_buffer { IsSameBuffer out.old out.new }
{
    section(out, b"routes ", &table.slots, table.len, route_fields);
}

// State, hardware address, expiry. An entry that was only started lists as incomplete.
fn state_fields(out: &mut Text, state: State)
    ensures adds { Adds out.old (neighbor_field state) out.new }
    ensures same_buffer { IsSameBuffer out.old out.new }
{
    match state {
        State::Started | State::Incomplete { .. } => out.word(b" incomplete - -"),
        State::Reachable {
            hardware_addr,
            expires_at,
        } => {
            out.word(b" reachable ");
            out.hardware(hardware_addr);
            number_field(out, expires_at.0);
        }
        State::Stale { hardware_addr } => {
            out.word(b" stale ");
            out.hardware(hardware_addr);
            out.word(b" -");
        }
    }
}

// Neighbour, state, hardware address, expiry.
fn neighbor_fields(out: &mut Text, entry: Entry)
    ensures adds { Adds out.old (neighbor_fields entry) out.new }
    ensures same_buffer { IsSameBuffer out.old out.new }
{
    out.address(entry.addr);
    state_fields(out, entry.state);
}

pub fn neighbors(out: &mut Text, cache: NeighborCache)
    ensures prints { Prints (neighbors_text (entries cache)) (section_most 16) out.old out.new }
    ensures same_buffer { IsSameBuffer out.old out.new }
{
    section(out, b"neighbors ", &cache.slots, cache.len, neighbor_fields);
}
