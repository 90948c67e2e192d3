// What the answer of a call prints: `refused` with a number, `off`, `solicit` with the message, the events of a sweep, or nothing.
ghost use Rattle.text.specs.Gathered.{Adds, IsSameBuffer};
ghost use Rattle.report.specs.AnswerLines.{Prints, event_most};
ghost use Rattle.script.specs.PrintedRules.{poll_text, ra_text, change_text, sweep_text};

use autoconf::{AdvertAnswer, PollAnswer};
use report::answer;
use sweep::Events;
use text::print::Text;
use wire::error::Refusal;

pub fn poll(out: &mut Text, time: u64, answered: Result<PollAnswer, Refusal>, message: &[u8])
    ensures adds { Adds out.old (poll_text time answered message.now) out.new }
    ensures same_buffer { IsSameBuffer out.old out.new }
{
    match answered {
        Err(why) => answer::refused(out, time, why.number()),
        Ok(PollAnswer::Off) => answer::off(out, time),
        Ok(PollAnswer::Solicited) => answer::solicit(out, time, message),
        // two arms: under one pattern for both the proof has no equation for `answered`
        Ok(PollAnswer::Quiet) => {}
        Ok(PollAnswer::NoRoom) => {}
    }
}

pub fn ra(out: &mut Text, time: u64, answered: Result<AdvertAnswer, Refusal>)
    ensures adds { Adds out.old (ra_text time answered) out.new }
    ensures same_buffer { IsSameBuffer out.old out.new }
{
    match answered {
        Err(why) => answer::refused(out, time, why.number()),
        Ok(AdvertAnswer::Off) => answer::off(out, time),
        Ok(AdvertAnswer::Done) => {}
    }
}

pub fn change(out: &mut Text, time: u64, answered: Result<(), Refusal>)
    ensures adds { Adds out.old (change_text time answered) out.new }
    ensures same_buffer { IsSameBuffer out.old out.new }
{
    if let Err(why) = answered {
        answer::refused(out, time, why.number());
    }
}

pub fn sweep(out: &mut Text, time: u64, answered: Result<(), Refusal>, events: Events)
    ensures prints { Prints (sweep_text time answered events) event_most out.old out.new }
    ensures same_buffer { IsSameBuffer out.old out.new }
{
    match answered {
        Err(why) => answer::refused(out, time, why.number()),
        Ok(()) => answer::probes(out, time, events),
    }
}
