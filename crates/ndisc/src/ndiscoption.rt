// Neighbour-discovery options (RFC 4861, 4.6): checked, read, written at a place of a message, and walked.
// `s` is always the part of the message that begins at the option. A length is in units of 8 bytes.
ghost use Rattle.std.specs.Prelude.{◌≡◌, ◌<◌, ◌≤◌, true, length, MatchOption, ◌++◌, drop};
ghost use Rattle.wire.specs.Rfc2464.{hardware_at};
ghost use Rattle.ndisc.specs.Rfc4861Options.{malformed, flag, prefix_at};
ghost use Rattle.ndisc.specs.OptionCalls.{least_len, Measured, Checks, HandsBack, link_layer_bytes, prefix_bytes, mtu_bytes, Wrote};
ghost use Rattle.ndisc.specs.OptionWalk.{Steps, Walks};

use crate::bytes_at;
use wire::error::Refusal;
use wire::ethernet::HardwareAddress;
use wire::ipv6::Ipv6Addr;

// Types of option.
mod option_type {
    pub const SOURCE_LINK_LAYER_ADDR: u8 = 1;

    pub const TARGET_LINK_LAYER_ADDR: u8 = 2;

    pub const PREFIX_INFORMATION: u8 = 3;

    pub const REDIRECTED_HEADER: u8 = 4;

    pub const MTU: u8 = 5;
}

// Where an option's fields begin.
mod field {
    pub const TYPE: usize = 0;

    pub const LENGTH: usize = 1;

    pub const DATA: usize = 2;

    pub const LINK_LAYER_ADDR: usize = 2;

    pub const PREFIX_LEN: usize = 2;

    pub const FLAGS: usize = 3;

    pub const VALID_LT: usize = 4;

    pub const PREF_LT: usize = 8;

    pub const PREF_RESERVED: usize = 12;

    pub const PREFIX: usize = 16;

    pub const MTU: usize = 4;
}

// What a length counts, in bytes.
const UNIT: usize = 8;

// The fewest bytes of an option, of one with prefix information, and of a redirected header.
const MIN_OPT_LEN: usize = 8;

const PREFIX_INFORMATION_LEN: usize = 32;

const REDIR_MIN_SZ: usize = 48;

// The lengths in units of the options that are written.
const ONE_UNIT: u8 = 1;

const PREFIX_INFORMATION_UNITS: u8 = 4;

// Flags of prefix information.
const ON_LINK: u8 = 0x80;

const ADDRCONF: u8 = 0x40;

// Lifetimes are in seconds.
#[derive(Clone, Copy)]
pub struct PrefixInformation {
    pub prefix_len: u8,
    pub on_link: bool,
    pub addrconf: bool,
    pub valid_lifetime: u32,
    pub preferred_lifetime: u32,
    pub prefix: Ipv6Addr,
}

#[derive(Clone, Copy)]
pub enum NdiscOption {
    SourceLinkLayerAddr(HardwareAddress),
    TargetLinkLayerAddr(HardwareAddress),
    PrefixInformation(PrefixInformation),
    RedirectedHeader,
    Mtu(u32),
    Unknown(u8),
}

// An enum of its own and no Result, as document 01 has it for the checked option.
#[derive(Clone, Copy)]
pub enum Checked {
    Refused(Refusal),
    Well { option: NdiscOption, units: usize },
}

// What stands at a place of the options: one of three, so neither an Option nor a Result.
#[derive(Clone, Copy)]
pub enum Next {
    End,
    Malformed,
    Option { option: NdiscOption, next: usize },
}

// The fewest bytes that an option of a type has.
fn least_len(kind: u8) -> usize
    ensures { result ≡ least_len kind }
{
    match kind {
        option_type::PREFIX_INFORMATION => PREFIX_INFORMATION_LEN,
        option_type::REDIRECTED_HEADER => REDIR_MIN_SZ,
        _ => MIN_OPT_LEN,
    }
}

// How many units the option has, if it is well formed.
fn units(s: &[u8]) -> Option<usize>
    ensures { MatchOption result (malformed s.now ≡ true) (Measured s.now) }
{
    if s.len() < MIN_OPT_LEN {
        return None;
    }
    let units = usize::from(s[field::LENGTH]);
    let len = UNIT * units;
    if s.len() < len || len < least_len(s[field::TYPE]) {
        return None;
    }
    Some(units)
}

fn link_layer_addr(s: &[u8]) -> HardwareAddress
    requires { 8 ≤ length s.now }
    ensures { result ≡ hardware_at s.now 2 }
{
    HardwareAddress::from_octets(&bytes_at(s, field::LINK_LAYER_ADDR))
}

// RFC 4861, 4.6.2: a receiver ignores the bits past the prefix length.
fn prefix_information(s: &[u8]) -> PrefixInformation
    requires { 32 ≤ length s.now }
    ensures { result ≡ prefix_at s.now }
{
    let prefix_len = s[field::PREFIX_LEN];
    let flags = s[field::FLAGS];
    PrefixInformation {
        prefix_len,
        on_link: flags & ON_LINK != 0,
        addrconf: flags & ADDRCONF != 0,
        valid_lifetime: u32::from_be_bytes(bytes_at(s, field::VALID_LT)),
        preferred_lifetime: u32::from_be_bytes(bytes_at(s, field::PREF_LT)),
        prefix: Ipv6Addr::from_octets(&bytes_at(s, field::PREFIX)).mask(prefix_len),
    }
}

// Whether the option is well formed, and what it holds. Each arm returns: where they meet before the answer is copied out, each pays
// for the others.
pub fn check_option(s: &[u8]) -> Checked
    ensures { Checks s.now result }
{
    let Some(units) = units(s) else {
        return Checked::Refused(Refusal::Malformed);
    };
    let kind = s[field::TYPE];
    match kind {
        option_type::SOURCE_LINK_LAYER_ADDR => {
            return Checked::Well {
                option: NdiscOption::SourceLinkLayerAddr(link_layer_addr(s)),
                units,
            };
        }
        option_type::TARGET_LINK_LAYER_ADDR => {
            return Checked::Well {
                option: NdiscOption::TargetLinkLayerAddr(link_layer_addr(s)),
                units,
            };
        }
        option_type::PREFIX_INFORMATION => {
            return Checked::Well {
                option: NdiscOption::PrefixInformation(prefix_information(s)),
                units,
            };
        }
        option_type::REDIRECTED_HEADER => {
            return Checked::Well {
                option: NdiscOption::RedirectedHeader,
                units,
            };
        }
        option_type::MTU => {
            return Checked::Well {
                option: NdiscOption::Mtu(u32::from_be_bytes(bytes_at(s, field::MTU))),
                units,
            };
        }
        _ => {
            return Checked::Well {
                option: NdiscOption::Unknown(kind),
                units,
            };
        }
    }
}

// The option's data, as a part of `s`; empty if the option is malformed.
pub fn data(s: &[u8]) -> &[u8]
    ensures { HandsBack s.entry result }
{
    match units(s) {
        Some(units) => &s[field::DATA..UNIT * units],
        None => &s[..0],
    }
}

fn link_layer_bytes(kind: u8, addr: HardwareAddress) -> [u8; 8]
    ensures { result ≡ link_layer_bytes kind addr }
{
    let [a, b, c, d, e, f] = addr.octets();
    [kind, ONE_UNIT, a, b, c, d, e, f]
}

fn mtu_bytes(mtu: u32) -> [u8; 8]
    ensures { result ≡ mtu_bytes mtu }
{
    let [a, b, c, d] = mtu.to_be_bytes();
    [option_type::MTU, ONE_UNIT, 0, 0, a, b, c, d]
}

fn flag(mask: u8, set: bool) -> u8
    ensures { result ≡ flag mask set }
{
    if set { mask } else { 0 }
}

fn prefix_bytes(info: PrefixInformation) -> [u8; PREFIX_INFORMATION_LEN]
    ensures { result ≡ prefix_bytes info }
{
    let mut bytes = [0; PREFIX_INFORMATION_LEN];
    bytes[field::TYPE] = option_type::PREFIX_INFORMATION;
    bytes[field::LENGTH] = PREFIX_INFORMATION_UNITS;
    bytes[field::PREFIX_LEN] = info.prefix_len;
    bytes[field::FLAGS] = flag(ON_LINK, info.on_link) | flag(ADDRCONF, info.addrconf);
    bytes[field::VALID_LT..field::PREF_LT].copy_from_slice(&info.valid_lifetime.to_be_bytes());
    bytes[field::PREF_LT..field::PREF_RESERVED].copy_from_slice(
        &info.preferred_lifetime.to_be_bytes(),
    );
    bytes[field::PREFIX..].copy_from_slice(&info.prefix.octets());
    bytes
}

// The leaf fills the first bytes of the part that it is lent.
fn fill<const N: usize>(s: &mut [u8], option: &[u8; N])
    requires { N ≤ length s.old }
    ensures { s.new ≡ option.now ++ drop N s.old }
{
    s[..N].copy_from_slice(option);
}

// The writer lends on the part of the message that begins at the place.
fn write<const N: usize>(msg: &mut [u8], at: usize, option: [u8; N]) -> Result<(), Refusal>
    requires { 0 < N }
    ensures { Wrote msg.old at option.entry result msg.new }
{
    if msg.len().saturating_sub(at) < N {
        return Err(Refusal::NoRoom);
    }
    fill(&mut msg[at..], &option);
    Ok(())
}

pub fn write_source_link_layer_addr(
    msg: &mut [u8],
    at: usize,
    addr: HardwareAddress,
) -> Result<(), Refusal>
    ensures { Wrote msg.old at (link_layer_bytes 1 addr) result msg.new }
{
    write(
        msg,
        at,
        link_layer_bytes(option_type::SOURCE_LINK_LAYER_ADDR, addr),
    )
}

// Beside the source's: each is one call, under its type's own name.
pub fn write_target_link_layer_addr(
    msg: &mut [u8],
    at: usize,
    addr: HardwareAddress,
) -> Result<(), Refusal>
    ensures { Wrote msg.old at (link_layer_bytes 2 addr) result msg.new }
{
    write(
        msg,
        at,
        link_layer_bytes(option_type::TARGET_LINK_LAYER_ADDR, addr),
    )
}

pub fn write_prefix_information(
    msg: &mut [u8],
    at: usize,
    info: PrefixInformation,
) -> Result<(), Refusal>
    ensures { Wrote msg.old at (prefix_bytes info) result msg.new }
{
    write(msg, at, prefix_bytes(info))
}

pub fn write_mtu(msg: &mut [u8], at: usize, mtu: u32) -> Result<(), Refusal>
    ensures { Wrote msg.old at (mtu_bytes mtu) result msg.new }
{
    write(msg, at, mtu_bytes(mtu))
}

// What stands at a place.
pub fn next_option(msg: &[u8], at: usize) -> Next
    ensures { Steps msg.now at result }
{
    if msg.len() <= at {
        return Next::End;
    }
    match check_option(&msg[at..]) {
        Checked::Refused(_) => Next::Malformed,
        Checked::Well { option, units } => Next::Option {
            option,
            next: at + UNIT * units,
        },
    }
}

// Whether the options from place `from` to the end of the message are all well formed. The walk is left at the first that is not.
pub fn check_options(msg: &[u8], from: usize) -> Option<usize>
    ensures { Walks msg.now from result }
{
    let mut at = from;
    loop {
        if msg.len() <= at {
            break None;
        }
        match check_option(&msg[at..]) {
            Checked::Refused(_) => break Some(at),
            Checked::Well { units, .. } => at += UNIT * units,
        }
    }
}
