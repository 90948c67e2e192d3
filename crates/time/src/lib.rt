// Points in time, lengths of time, and the clock that one poll lends to each of its parts.
#![tactic(auto)]

ghost use Rattle.std.specs.Prelude.{◌≡◌};
ghost use Rattle.time.specs.ClockRules.{idle, scheduled_of, asked_of, is_after, asked_end};
ghost use Rattle.time.specs.TimeRules.{add_of, seconds_of};

// A point in time, in milliseconds.
#[derive(Debug, Clone, Copy, PartialEq, Eq, PartialOrd, Ord)]
pub struct Instant(pub u64);

// A length of time, in milliseconds.
#[derive(Debug, Clone, Copy, PartialEq, Eq, PartialOrd, Ord)]
pub struct Duration(pub u64);

const MILLIS_PER_SEC: u64 = 1000;

// When something ends: at a moment, or never. No Option: `None` of a deadline says that nobody waits, and neither is to pass for the other.
#[derive(Debug, Clone, Copy, PartialEq, Eq)]
pub enum Expiry {
    At(Instant),
    Forever,
}

#[derive(Clone, Copy)]
pub struct Clock {
    pub now: Instant,
    // The earliest point that someone waits for.
    pub deadline: Option<Instant>,
}

// What asking gives: whether the time has come, and the clock afterwards, which comes back either way.
#[derive(Clone, Copy)]
pub struct Answer {
    pub expired: bool,
    pub clock: Clock,
}

impl Duration {
    // 32 bits of seconds, as a lifetime on the wire has them, fit as milliseconds.
    pub fn from_secs(secs: u32) -> Duration
        ensures { result ≡ seconds_of secs }
    {
        Duration(u64::from(secs) * MILLIS_PER_SEC)
    }
}

impl Instant {
    // The one operation that mixes the two. Past 64 bits it is the last point in time.
    pub fn add(self, duration: Duration) -> Instant
        ensures { result ≡ add_of self duration }
    {
        Instant(self.0.saturating_add(duration.0))
    }
}

// The clock with `at` among the times that someone waits for.
pub fn scheduled(clock: Clock, at: Instant) -> Clock
    ensures { result ≡ scheduled_of clock at }
{
    let deadline = match clock.deadline {
        None => Some(at),
        Some(earliest) => Some(at.min(earliest)),
    };
    Clock { deadline, ..clock }
}

// Whether `at` has come; a time that has not come is scheduled.
pub fn asked(clock: Clock, at: Instant) -> Answer
    ensures { result ≡ asked_of clock at }
{
    if at <= clock.now {
        return Answer {
            expired: true,
            clock,
        };
    }
    Answer {
        expired: false,
        clock: scheduled(clock, at),
    }
}

// The same of an end. What never ends is not waited for.
pub fn asked_of(clock: Clock, end: Expiry) -> Answer
    ensures { result ≡ asked_end clock end }
{
    match end {
        Expiry::At(at) => asked(clock, at),
        Expiry::Forever => Answer {
            expired: false,
            clock,
        },
    }
}

impl Expiry {
    // Whether it is still to come.
    pub fn is_after(self, now: Instant) -> bool
        ensures { result ≡ is_after self now }
    {
        match self {
            Expiry::At(at) => now < at,
            Expiry::Forever => true,
        }
    }
}

impl Clock {
    // A clock that nobody waits on.
    pub fn new(now: Instant) -> Clock
        ensures { result ≡ idle now }
    {
        Clock {
            now,
            deadline: None,
        }
    }

    pub fn now(&self) -> Instant
        ensures { result ≡ self.entry.now.now }
    {
        self.now
    }

    pub fn expired(&mut self, at: Instant) -> bool
        ensures { (result ≡ (asked_of self.old at).expired) × (self.new ≡ (asked_of self.old at).clock) }
    {
        let answer = asked(*self, at);
        *self = answer.clock;
        answer.expired
    }

    pub fn schedule(&mut self, at: Instant)
        ensures { self.new ≡ scheduled_of self.old at }
    {
        *self = scheduled(*self, at);
    }
}
