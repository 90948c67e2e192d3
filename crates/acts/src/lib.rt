// Single calls that change something. The clock is lent.
#![tactic(auto)]

use answers::Answers;
use autoconf::PollAnswer;
use fields::Fields;
use iface::route::IPV6_DEFAULT;
use ndisc::ndisc::SOLICIT_LEN;
use neighbor::Changed;
use pending::{Handles, Purged};
use text::print::Text;
use time::{Clock, Instant};
use wire::error::{Refusal, check_iface};
use wire::ethernet::HardwareAddress;
use wire::ipv6::{Ipv6Addr, Ipv6Cidr};
use world::{LENT, UNWRITTEN, World};

// A call, with what its line says: an interface first, then a neighbour's or a router's address.
#[derive(Clone, Copy)]
enum Call<'a> {
    New(HardwareAddress, u64),
    Clock(Clock),
    Expired(Instant),
    Schedule(Instant),
    Start(u8, Ipv6Addr),
    Fill(u8, Ipv6Addr, HardwareAddress, Instant),
    Insert(u8, Ipv6Addr, HardwareAddress, Instant),
    Clear(u8),
    Remove(u8, Ipv6Addr),
    Push(u8, Ipv6Addr, u32),
    Release(u8, Ipv6Addr),
    Address(u8, Ipv6Cidr),
    Route(u8, Ipv6Cidr, Ipv6Addr),
    Link(u8, bool),
    Restart(u8),
    On(u8),
    Off(u8),
    Ra(u8, Ipv6Addr, Instant, &'a [u8]),
    Orphans,
    Purge(u8),
    Sweep(u8, Clock),
    // of the buffer as much is lent as the line says and there is
    Poll(u8, Clock, usize),
}

// A clock of a time and a deadline.
fn read_clock(fields: &mut Fields) -> Option<Clock> {
    Some(Clock {
        now: fields.instant()?,
        deadline: fields.deadline()?,
    })
}

fn read_cidr(fields: &mut Fields) -> Option<Ipv6Cidr> {
    Some(Ipv6Cidr {
        address: fields.address()?,
        prefix_len: fields.any_len()?,
    })
}

fn read_ra<'a>(fields: &mut Fields, room: &'a mut [u8]) -> Option<Call<'a>> {
    let iface = fields.byte()?;
    let source = fields.address()?;
    let now = fields.instant()?;
    Some(Call::Ra(iface, source, now, fields.bytes(room)?))
}

// A call on a table, by its word.
fn read_table_call<'a>(word: &[u8], fields: &mut Fields) -> Option<Call<'a>> {
    let iface = fields.byte()?;
    let call = match word {
        b"start" => Call::Start(iface, fields.address()?),
        b"fill" => Call::Fill(
            iface,
            fields.address()?,
            fields.hardware()?,
            fields.instant()?,
        ),
        b"insert" => Call::Insert(
            iface,
            fields.address()?,
            fields.hardware()?,
            fields.instant()?,
        ),
        b"clear" => Call::Clear(iface),
        b"remove" => Call::Remove(iface, fields.address()?),
        b"push" => Call::Push(iface, fields.address()?, fields.word()?),
        b"release" => Call::Release(iface, fields.address()?),
        b"address" => Call::Address(iface, read_cidr(fields)?),
        b"route" => Call::Route(iface, IPV6_DEFAULT, fields.address()?),
        b"routeto" => Call::Route(iface, read_cidr(fields)?, fields.address()?),
        _ => return None,
    };
    Some(call)
}

// A call by its word.
fn read_fields<'a>(fields: &mut Fields, room: &'a mut [u8]) -> Option<Call<'a>> {
    let call = match fields.field()? {
        b"new" => Call::New(fields.hardware()?, fields.number()?),
        b"clock" => Call::Clock(read_clock(fields)?),
        b"expired" => Call::Expired(fields.instant()?),
        b"schedule" => Call::Schedule(fields.instant()?),
        b"link" => Call::Link(fields.byte()?, fields.up()?),
        b"restart" => Call::Restart(fields.byte()?),
        b"on" => Call::On(fields.byte()?),
        b"off" => Call::Off(fields.byte()?),
        b"ra" => read_ra(fields, room)?,
        b"orphans" => Call::Orphans,
        b"purge" => Call::Purge(fields.byte()?),
        b"sweep" => Call::Sweep(fields.byte()?, read_clock(fields)?),
        b"poll" => Call::Poll(
            fields.byte()?,
            read_clock(fields)?,
            fields.number()? as usize,
        ),
        word => read_table_call(word, fields)?,
    };
    Some(call)
}

fn expired(world: &mut World, at: Instant, out: &mut Text) {
    let asked = lending::expired(world.clock, at);
    world.clock = asked.clock;
    out.yes_or_no(asked.yes);
    out.deadline_after(b" deadline ", asked.clock.deadline);
}

fn schedule(world: &mut World, at: Instant, out: &mut Text) {
    world.clock = lending::schedule(world.clock, at);
    out.deadline_after(b"deadline ", world.clock.deadline);
}

// Start, fill, insert and clear.
fn changed(world: &mut World, left: Changed, out: &mut Text) {
    world.cache = left.cache;
    out.outcome(left.outcome);
}

fn remove(world: &mut World, iface: u8, addr: Ipv6Addr, out: &mut Text) {
    let left = world.cache.remove(iface, addr);
    world.cache = left.cache;
    out.got(left.taken);
}

fn push(world: &mut World, iface: u8, addr: Ipv6Addr, handle: u32, out: &mut Text) {
    let left = world.queue.push(iface, addr, handle);
    world.queue = left.queue;
    out.push(left.answer);
}

fn release(world: &mut World, iface: u8, addr: Ipv6Addr, out: &mut Text) {
    let left = world.queue.release(iface, addr);
    world.queue = left.queue;
    out.release(left.answer);
}

fn address(world: &mut World, iface: u8, cidr: Ipv6Cidr, out: &mut Text) {
    let part = world.iface_mut(iface);
    let left = part.addrs.add_ip_addr(iface, cidr);
    part.addrs = left.addrs;
    out.outcome(left.outcome);
}

fn route(world: &mut World, iface: u8, cidr: Ipv6Cidr, via: Ipv6Addr, out: &mut Text) {
    let left = world.routes.add_route(iface, cidr, via);
    world.routes = left.routes;
    out.outcome(left.outcome);
}

fn link(world: &mut World, iface: u8, up: bool, out: &mut Text) {
    match check_iface(iface) {
        Err(why) => out.refused(why),
        Ok(()) => {
            world.iface_mut(iface).up = up;
            out.outcome(Ok(()));
        }
    }
}

fn restart(world: &mut World, iface: u8, out: &mut Text) {
    let part = world.iface_mut(iface);
    let left = part.slaac.restart(iface);
    part.slaac = left.slaac;
    out.outcome(left.outcome);
}

fn on(world: &mut World, iface: u8, out: &mut Text) {
    let part = world.iface_mut(iface);
    let left = part.slaac.turn_on(iface);
    part.slaac = left.slaac;
    out.outcome(left.outcome);
}

fn handed_back(outcome: Result<(), Refusal>, dropped: Handles, out: &mut Text) {
    match outcome {
        Err(why) => out.refused(why),
        Ok(()) => out.handles(b"dropped ", dropped),
    }
}

// Turning SLAAC off: what it leaves, and the handles of the packets that went with an address.
fn off(world: &mut World, iface: u8, out: &mut Text) {
    let part = *world.iface(iface);
    let left = autoconf::turn_off(
        part.slaac,
        part.addrs,
        world.routes,
        world.cache,
        world.queue,
        iface,
    );
    let part = world.iface_mut(iface);
    part.slaac = left.slaac;
    part.addrs = left.addrs;
    world.routes = left.routes;
    world.cache = left.cache;
    world.queue = left.queue;
    handed_back(left.outcome, left.handles, out);
}

fn ra(
    world: &mut World,
    iface: u8,
    source: Ipv6Addr,
    now: Instant,
    message: &[u8],
    out: &mut Text,
) {
    let slaac = world.iface(iface).slaac;
    let left = autoconf::process_advertisement(slaac, world.cache, iface, source, message, now);
    world.iface_mut(iface).slaac = left.slaac;
    world.cache = left.cache;
    out.advert(left.answer);
}

// The queue after a purge, and the handles that left it.
fn purged(world: &mut World, left: Purged, out: &mut Text) {
    world.queue = left.queue;
    handed_back(left.outcome, left.handles, out);
}

fn sweep(world: &mut World, iface: u8, clock: Clock, out: &mut Text) {
    let left = lending::sweep(world.cache, clock, iface);
    world.cache = left.reported.cache;
    world.clock = left.clock;
    match left.reported.outcome {
        Err(why) => {
            out.refused(why);
            out.looked(left.reported.looked);
        }
        Ok(()) => {
            out.deadline_after(b"deadline ", left.clock.deadline);
            out.looked(left.reported.looked);
            out.events(left.reported.events);
        }
    }
}

fn poll(world: &mut World, iface: u8, clock: Clock, lent: usize, out: &mut Text) {
    let mut buf = [UNWRITTEN; LENT];
    let part = *world.iface(iface);
    let left = lending::poll(
        part.slaac,
        part.addrs,
        world.routes,
        iface,
        part.up,
        world.hardware_addr,
        &mut buf[..lent.min(LENT)],
        clock,
    );
    let part = world.iface_mut(iface);
    part.slaac = left.polled.slaac;
    part.addrs = left.polled.addrs;
    world.routes = left.polled.routes;
    world.clock = left.clock;
    polled(left.polled.answer, left.clock, &buf[..SOLICIT_LEN], out);
}

// What was sent is printed after a poll that sent something.
fn polled(answer: Result<PollAnswer, Refusal>, clock: Clock, sent: &[u8], out: &mut Text) {
    if let Err(why) = answer {
        out.refused(why);
        return;
    }
    out.deadline_after(b"deadline ", clock.deadline);
    out.word(b" ");
    out.poll(answer);
    if let Ok(PollAnswer::Solicited) = answer {
        out.word(b" ");
        out.hexes(sent);
    }
}

fn act(world: &mut World, call: Call, out: &mut Text) {
    match call {
        Call::New(hardware_addr, first) => {
            *world = World::new(hardware_addr, first);
            out.outcome(Ok(()));
        }
        Call::Clock(clock) => {
            world.clock = clock;
            out.outcome(Ok(()));
        }
        Call::Expired(at) => expired(world, at, out),
        Call::Schedule(at) => schedule(world, at, out),
        Call::Start(iface, addr) => {
            let left = world.cache.start_resolution(iface, addr);
            changed(world, left, out);
        }
        Call::Fill(iface, addr, hardware_addr, now) => {
            let left = world.cache.fill(iface, addr, hardware_addr, now);
            changed(world, left, out);
        }
        Call::Insert(iface, addr, hardware_addr, now) => {
            let left = world.cache.insert(iface, addr, hardware_addr, now);
            changed(world, left, out);
        }
        Call::Clear(iface) => {
            let left = world.cache.clear_iface(iface);
            changed(world, left, out);
        }
        Call::Remove(iface, addr) => remove(world, iface, addr, out),
        Call::Push(iface, addr, handle) => push(world, iface, addr, handle, out),
        Call::Release(iface, addr) => release(world, iface, addr, out),
        Call::Address(iface, cidr) => address(world, iface, cidr, out),
        Call::Route(iface, cidr, via) => route(world, iface, cidr, via, out),
        Call::Link(iface, up) => link(world, iface, up, out),
        Call::Restart(iface) => restart(world, iface, out),
        Call::On(iface) => on(world, iface, out),
        Call::Off(iface) => off(world, iface, out),
        Call::Ra(iface, source, now, message) => ra(world, iface, source, now, message, out),
        Call::Orphans => {
            let left = world.queue.purge_orphans(world.cache);
            purged(world, left, out);
        }
        Call::Purge(iface) => {
            let left = world.queue.purge_iface(iface);
            purged(world, left, out);
        }
        Call::Sweep(iface, clock) => sweep(world, iface, clock, out),
        Call::Poll(iface, clock, lent) => poll(world, iface, clock, lent, out),
    }
}

fn read_call<'a>(line: &[u8], room: &'a mut [u8]) -> Option<Call<'a>> {
    let mut fields = Fields::new(line);
    let call = read_fields(&mut fields, room)?;
    fields.is_empty().then_some(call)
}

// Carries out a line, if it is one of these, and says whether it was.
pub fn act_line(world: &mut World, line: &[u8], room: &mut [u8], out: &mut Text) -> bool {
    let Some(call) = read_call(line, room) else {
        return false;
    };
    act(world, call, out);
    true
}
