// The main loop's lines, on a card that is interface 0 with what the interfaces share.
#![tactic(auto)]

use answers::Answers;
use fields::Fields;
use mainloop::{Action, Card, IFACE, INBOX_COUNT, Inbox, Input, Ran, Report, Woken};
use ndisc::ndisc::SOLICIT_LEN;
use text::print::Text;
use time::Instant;
use world::{LENT, UNWRITTEN, World};

// The two lines: a turn is a run of one input, whose budget is one, and prints its report without a count. Of the buffer as much is lent
// as the line says and there is.
#[derive(Clone, Copy)]
enum Call {
    Turn {
        lent: usize,
    },
    Run {
        lent: usize,
        budget: usize,
        until: Option<Instant>,
    },
}

// A call, and its inputs.
#[derive(Clone, Copy)]
struct Round {
    call: Call,
    inbox: Inbox,
}

fn card_of(world: &World) -> Card {
    let iface = world.iface(IFACE);
    Card {
        slaac: iface.slaac,
        addrs: iface.addrs,
        routes: world.routes,
        cache: world.cache,
        queue: world.queue,
    }
}

fn set_card(world: &mut World, card: Card) {
    let iface = world.iface_mut(IFACE);
    iface.slaac = card.slaac;
    iface.addrs = card.addrs;
    world.routes = card.routes;
    world.cache = card.cache;
    world.queue = card.queue;
}

fn read_fields(fields: &mut Fields) -> Option<Call> {
    match fields.field()? {
        b"turn" => Some(Call::Turn {
            lent: fields.number()? as usize,
        }),
        b"run" => Some(Call::Run {
            lent: fields.number()? as usize,
            budget: fields.number()? as usize,
            until: fields.deadline()?,
        }),
        _ => None,
    }
}

// An input: its time, its word, and what it says. A message is put at a place of what is received.
fn read_input(fields: &mut Fields, up: bool, received: &mut [u8], place: usize) -> Option<Woken> {
    let at = fields.instant()?;
    let mut message_len = 0;
    let input = match fields.field()? {
        b"timer" => Input::Timer,
        b"linkup" => Input::LinkUp,
        b"advert" => {
            let source = fields.address()?;
            message_len = fields.bytes(received.get_mut(place..)?)?.len();
            Input::RouterAdvert(source)
        }
        b"answer" => Input::NeighborAdvert(fields.address()?, fields.hardware()?),
        b"packet" => Input::Packet(fields.address()?, fields.word()?),
        _ => return None,
    };
    Some(Woken {
        at,
        up,
        input,
        message_from: place,
        message_len,
    })
}

// The inputs of a line, one behind the other; none where there are too many.
fn read_inbox(fields: &mut Fields, up: bool, received: &mut [u8]) -> Option<Inbox> {
    let none = Woken {
        at: Instant(0),
        up,
        input: Input::Timer,
        message_from: 0,
        message_len: 0,
    };
    let mut inbox = Inbox {
        slots: [none; INBOX_COUNT],
        len: 0,
    };
    let mut place = 0;
    for (i, slot) in inbox.slots.iter_mut().enumerate() {
        if fields.is_empty() {
            break;
        }
        *slot = read_input(fields, up, received, place)?;
        place = place.wrapping_add(slot.message_len);
        inbox.len = i + 1;
    }
    fields.is_empty().then_some(inbox)
}

fn read_round(line: &[u8], up: bool, received: &mut [u8]) -> Option<Round> {
    let mut fields = Fields::new(line);
    let call = read_fields(&mut fields)?;
    let inbox = read_inbox(&mut fields, up, received)?;
    match call {
        Call::Turn { .. } if inbox.len != 1 => None,
        _ => Some(Round { call, inbox }),
    }
}

fn action(done: Action, out: &mut Text) {
    match done {
        Action::Nothing => out.word(b"nothing"),
        Action::Heard(answer) => {
            out.word(b"heard ");
            out.advert(answer);
        }
        Action::HeardFrom(answer, hardware_addr) => {
            out.word(b"heard ");
            out.advert(answer);
            out.hardware_after(b" from ", hardware_addr);
        }
        Action::Refused(why) => out.refused(why),
        Action::Send(hardware_addr) => out.hardware_after(b"send ", hardware_addr),
        Action::Wait(push) => {
            out.word(b"wait ");
            out.push(push);
        }
        Action::Solicit(push) => {
            out.word(b"solicit ");
            out.push(push);
        }
    }
}

fn report(left: &Report, out: &mut Text) {
    action(left.action, out);
    out.handles(b" ready ", left.ready);
    out.handles(b" dropped ", left.dropped);
    out.word(b" poll ");
    out.poll(left.answer);
    out.events(left.events);
}

// A run's reports are counted; a turn has one. Then until when the card may sleep, and the front of what it was lent.
fn printed(ran: &Ran, call: Call, lent: &[u8], out: &mut Text) {
    match call {
        Call::Turn { .. } => report(&ran.reports.slots[0], out),
        Call::Run { .. } => {
            let turns = ran.reports.len.min(INBOX_COUNT);
            out.number(turns as u64);
            for left in &ran.reports.slots[..turns] {
                out.word(b" | ");
                report(left, out);
            }
        }
    }
    out.deadline_after(b" | wake ", ran.wake);
    out.word(b" buffer ");
    out.bytes(&lent[..lent.len().min(SOLICIT_LEN)]);
}

fn run(world: &mut World, round: Round, received: &[u8], out: &mut Text) {
    let mut buf = [UNWRITTEN; LENT];
    let (room, budget, until) = match round.call {
        Call::Turn { lent } => (lent, 1, None),
        Call::Run {
            lent,
            budget,
            until,
        } => (lent, budget, until),
    };
    let lent = &mut buf[..room.min(LENT)];
    let ran = mainloop::run(
        card_of(world),
        until,
        round.inbox,
        received,
        world.hardware_addr,
        lent,
        budget,
    );
    set_card(world, ran.card);
    printed(&ran, round.call, lent, out);
}

// Runs a line, if it is one of these, and says whether it was.
pub fn round_line(world: &mut World, line: &[u8], room: &mut [u8], out: &mut Text) -> bool {
    let Some(round) = read_round(line, world.iface(IFACE).up, room) else {
        return false;
    };
    run(world, round, room, out);
    true
}
