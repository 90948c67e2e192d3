// Single calls on addresses, messages and options: no state is looked at.
#![tactic(auto)]

use answers::Answers;
use fields::Fields;
use ndisc::ndisc::{Solicited, is_router_solicit, router_advert, write_solicit};
use ndisc::ndiscoption::{Checked, NdiscOption, Next, PrefixInformation};
use ndisc::{icmpv6, ndiscoption};
use text::print::Text;
use time::{Duration, Instant};
use wire::error::Refusal;
use wire::ethernet::HardwareAddress;
use wire::ipv6::{Formed, Ipv6Addr, Ipv6Cidr};

// Flags of prefix information, as they are printed and read.
const ON_LINK: u8 = 0x80;

const ADDRCONF: u8 = 0x40;

// The data of an option begins past its type and its length.
const DATA: usize = 2;

// A call, with what its line says. What is read or written is in the room that is lent.
#[derive(Drop)]
enum Call<'a> {
    Option(&'a [u8]),
    // a message, the place in it, and what is written there
    Write(&'a mut [u8], usize, Holding),
    Solicit(&'a mut [u8], Ipv6Addr, HardwareAddress),
    Advert(&'a [u8]),
    Options(&'a [u8], usize),
    Next(&'a [u8], usize),
    // a message, its source and its destination
    Checksum(&'a [u8], Ipv6Addr, Ipv6Addr),
    Solicitation(&'a [u8], Ipv6Addr),
    Kind(Ipv6Addr),
    Hardware(HardwareAddress),
    Form(Ipv6Cidr, HardwareAddress),
    Formed(Ipv6Addr, HardwareAddress),
    Same(HardwareAddress, HardwareAddress),
    Mask(Ipv6Addr, u8),
    Add(Instant, Duration),
}

// The options that can be written.
#[derive(Clone, Copy)]
enum Holding {
    Source(HardwareAddress),
    Target(HardwareAddress),
    Prefix(PrefixInformation),
    Mtu(u32),
}

fn read_prefix(fields: &mut Fields) -> Option<PrefixInformation> {
    let prefix_len = fields.byte()?;
    let flags = fields.byte()?;
    Some(PrefixInformation {
        prefix_len,
        on_link: flags & ON_LINK != 0,
        addrconf: flags & ADDRCONF != 0,
        valid_lifetime: fields.word()?,
        preferred_lifetime: fields.word()?,
        prefix: fields.address()?,
    })
}

// An option by its type.
fn read_holding(fields: &mut Fields) -> Option<Holding> {
    match fields.field()? {
        b"1" => Some(Holding::Source(fields.hardware()?)),
        b"2" => Some(Holding::Target(fields.hardware()?)),
        b"3" => Some(Holding::Prefix(read_prefix(fields)?)),
        b"5" => Some(Holding::Mtu(fields.word()?)),
        _ => None,
    }
}

fn read_place(fields: &mut Fields) -> Option<usize> {
    Some(fields.number()? as usize)
}

fn read_cidr(fields: &mut Fields) -> Option<Ipv6Cidr> {
    Some(Ipv6Cidr {
        address: fields.address()?,
        prefix_len: fields.byte()?,
    })
}

// A call on addresses, by its word.
fn read_address_call<'a>(word: &[u8], fields: &mut Fields) -> Option<Call<'a>> {
    let call = match word {
        b"kind" => Call::Kind(fields.address()?),
        b"hardware" => Call::Hardware(fields.hardware()?),
        b"form" => Call::Form(read_cidr(fields)?, fields.hardware()?),
        b"formed" => Call::Formed(fields.address()?, fields.hardware()?),
        b"same" => Call::Same(fields.hardware()?, fields.hardware()?),
        b"mask" => Call::Mask(fields.address()?, fields.byte()?),
        b"add" => Call::Add(fields.instant()?, Duration(fields.number()?)),
        _ => return None,
    };
    Some(call)
}

fn read_checksum<'a>(fields: &mut Fields, room: &'a mut [u8]) -> Option<Call<'a>> {
    let source = fields.address()?;
    let dst = fields.address()?;
    Some(Call::Checksum(fields.bytes(room)?, source, dst))
}

// A call by its word.
fn read_fields<'a>(fields: &mut Fields, room: &'a mut [u8]) -> Option<Call<'a>> {
    let call = match fields.field()? {
        b"option" => Call::Option(fields.bytes(room)?),
        b"write" => Call::Write(
            fields.bytes(room)?,
            read_place(fields)?,
            read_holding(fields)?,
        ),
        b"solicit" => Call::Solicit(fields.bytes(room)?, fields.address()?, fields.hardware()?),
        b"advert" => Call::Advert(fields.bytes(room)?),
        b"options" => Call::Options(fields.bytes(room)?, read_place(fields)?),
        b"next" => Call::Next(fields.bytes(room)?, read_place(fields)?),
        b"checksum" => read_checksum(fields, room)?,
        b"solicitation" => Call::Solicitation(fields.bytes(room)?, fields.address()?),
        word => read_address_call(word, fields)?,
    };
    Some(call)
}

fn kind(addr: Ipv6Addr, out: &mut Text) {
    out.flag(b"unicast ", addr.is_unicast());
    out.flag(b" multicast ", addr.is_multicast());
    out.flag(b" linklocal ", addr.is_link_local());
    out.flag(b" unspecified ", addr.is_unspecified());
    out.flag(b" allrouters ", addr.is_all_routers());
}

fn hardware(hardware_addr: HardwareAddress, out: &mut Text) {
    out.flag(b"unicast ", hardware_addr.is_unicast());
    out.word(b" eui ");
    out.hexes(&hardware_addr.as_eui_64());
}

fn form(link_prefix: Ipv6Cidr, hardware_addr: HardwareAddress, out: &mut Text) {
    match link_prefix.from_link_prefix(hardware_addr) {
        Formed::Nothing => out.word(b"nothing"),
        Formed::Addr(cidr) => out.address_after(b"formed ", cidr.address),
    }
}

fn flags(on_link: bool, addrconf: bool) -> u8 {
    let mut bits = 0;
    if on_link {
        bits |= ON_LINK;
    }
    if addrconf {
        bits |= ADDRCONF;
    }
    bits
}

fn prefix_information(info: PrefixInformation, out: &mut Text) {
    out.number_after(b"3 ", info.prefix_len as u64);
    out.field(flags(info.on_link, info.addrconf) as u64);
    out.field(Duration::from_secs(info.valid_lifetime).0);
    out.field(Duration::from_secs(info.preferred_lifetime).0);
    out.address_after(b" ", info.prefix);
}

// What an option holds.
fn held(option: NdiscOption, out: &mut Text) {
    match option {
        NdiscOption::SourceLinkLayerAddr(source) => out.hardware_after(b"1 ", source),
        NdiscOption::TargetLinkLayerAddr(target) => out.hardware_after(b"2 ", target),
        NdiscOption::PrefixInformation(info) => prefix_information(info, out),
        NdiscOption::RedirectedHeader => out.word(b"4"),
        NdiscOption::Mtu(mtu) => out.number_after(b"5 ", mtu as u64),
        NdiscOption::Unknown(other) => out.number(other as u64),
    }
}

// The data of an option: from where, up to where, and its bytes.
fn stretch(data: &[u8], out: &mut Text) {
    out.number_after(b" data ", DATA as u64);
    out.field(data.len().wrapping_add(DATA) as u64);
    out.word(b" ");
    out.bytes(data);
}

fn option(message: &[u8], out: &mut Text) {
    let data = ndiscoption::data(message);
    match ndiscoption::check_option(message) {
        Checked::Refused(_) => {
            out.word(b"malformed ");
            out.bytes(data);
        }
        Checked::Well { option, .. } => {
            held(option, out);
            stretch(data, out);
        }
    }
}

fn advert(message: &[u8], out: &mut Text) {
    match router_advert(message) {
        Err(why) => out.refused(why),
        Ok(header) => {
            out.number_after(b"lifetime ", header.router_lifetime as u64);
            out.flag(b" managed ", header.managed);
            out.flag(b" other ", header.other_config);
        }
    }
}

fn options(message: &[u8], from: usize, out: &mut Text) {
    match ndiscoption::check_options(message, from) {
        None => out.word(b"clean"),
        Some(place) => out.number_after(b"malformed ", place as u64),
    }
}

fn next(message: &[u8], from: usize, out: &mut Text) {
    match ndiscoption::next_option(message, from) {
        Next::End => out.word(b"end"),
        Next::Malformed => out.word(b"malformed"),
        Next::Option { option, next } => {
            held(option, out);
            out.number_after(b" next ", next as u64);
        }
    }
}

fn write(message: &mut [u8], place: usize, holding: Holding) -> Result<(), Refusal> {
    match holding {
        Holding::Source(addr) => ndiscoption::write_source_link_layer_addr(message, place, addr),
        Holding::Target(addr) => ndiscoption::write_target_link_layer_addr(message, place, addr),
        Holding::Prefix(info) => ndiscoption::write_prefix_information(message, place, info),
        Holding::Mtu(mtu) => ndiscoption::write_mtu(message, place, mtu),
    }
}

// Prints the message with the option in it.
fn written(message: &mut [u8], place: usize, holding: Holding, out: &mut Text) {
    match write(message, place, holding) {
        Err(why) => out.refused(why),
        Ok(()) => out.bytes(message),
    }
}

fn solicit(buffer: &mut [u8], source: Ipv6Addr, hardware_addr: HardwareAddress, out: &mut Text) {
    if let Solicited::NoRoom = write_solicit(buffer, source, hardware_addr) {
        out.word(b"noroom ");
    }
    out.bytes(buffer);
}

fn answer(call: Call, out: &mut Text) {
    match call {
        Call::Option(message) => option(message, out),
        Call::Write(message, place, holding) => written(message, place, holding, out),
        Call::Solicit(buffer, source, addr) => solicit(buffer, source, addr, out),
        Call::Advert(message) => advert(message, out),
        Call::Options(message, from) => options(message, from, out),
        Call::Next(message, from) => next(message, from, out),
        Call::Checksum(message, source, dst) => {
            out.number(icmpv6::checksum(source, dst, message) as u64)
        }
        Call::Solicitation(message, dst) => out.yes_or_no(is_router_solicit(message, dst)),
        Call::Kind(addr) => kind(addr, out),
        Call::Hardware(addr) => hardware(addr, out),
        Call::Form(link_prefix, addr) => form(link_prefix, addr, out),
        Call::Formed(addr, hardware_addr) => out.yes_or_no(addr.is_formed_from(hardware_addr)),
        Call::Same(addr, other) => out.yes_or_no(addr == other),
        Call::Mask(addr, len) => out.address_after(b"masked ", addr.mask(len)),
        Call::Add(from, span) => out.number(from.add(span).0),
    }
}

fn read_call<'a>(line: &[u8], room: &'a mut [u8]) -> Option<Call<'a>> {
    let mut fields = Fields::new(line);
    let call = read_fields(&mut fields, room)?;
    fields.is_empty().then_some(call)
}

// Answers a line, if it is one of these, and says whether it was.
pub fn values_line(line: &[u8], room: &mut [u8], out: &mut Text) -> bool {
    let Some(call) = read_call(line, room) else {
        return false;
    };
    answer(call, out);
    true
}
