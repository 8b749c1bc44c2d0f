// The deck: the four events, with time-out and quiet.
#![tactic(auto)]

ghost use Rattle.std.specs.Prelude.{◌≡◌, ℕ, length};
ghost use Rattle.deck.specs.Line.{byte, look, position, cassette};
ghost use Rattle.deck.specs.Calls.{Answers, new_deck, returned};
ghost use Rattle.deck.specs.Joins.{joining, tried, OnlyIf, filling, striking};

pub use limits::flags_fit;
use packed::Tail;
use refusal::Refusal;
use settings::Settings;

mod limits;
mod line;

// The latest time that a call takes.
pub const LAST_TIME: u64 = 281474976710655;

// The open block has `held` bytes, `first` and the latest of `tail`, and is none where that is 0: an `Option` of a count would be no
// plainer, nor a method for that test. A byte at a time below `free` is in quiet. A speed bar: as an array the block was copied at each
// call, most of the marker's time, and with a `u8` for `first` the struct has a gap, which no register holds.
#[derive(Clone, Copy)]
pub struct Deck {
    pub clock: u64,
    pub last: u64,
    pub free: u64,
    pub held: usize,
    pub first: u64,
    pub tail: Tail,
    pub settings: Settings,
}

// A reply in the output: its length and its due time. What may not change: the replies' bytes stand in the lent output, one after the other
// (`Call`), so that whoever reads them takes them off its front.
#[derive(Clone, Copy)]
pub struct Sent {
    pub len: usize,
    pub due: u64,
}

// The deck, and the replies that stand at the front of the output. Where there is one, it is the first. No heap: no list, and an array of
// two would be no plainer for who asks for the first alone.
#[derive(Clone, Copy)]
pub struct Answer {
    pub deck: Deck,
    pub first: Option<Sent>,
    pub second: Option<Sent>,
}

// What comes of a byte that is to join the open block: it is taken, and this is the deck; or it fills the block, or neither.
#[derive(Clone, Copy)]
pub enum Joined {
    Grown(Deck),
    Fills,
    Other,
}

impl Deck {
    pub fn power_on() -> Deck
        ensures { result ≡ new_deck }
    {
        Deck {
            clock: 0,
            last: 0,
            free: 0,
            held: 0,
            first: 0,
            tail: Tail::none(),
            settings: Settings::power_on(),
        }
    }

    // Time, content and flags stand apart, here and below, as in the event of the papers (`byte` in specs/Line.antt).
    pub fn byte(
        mut self,
        time: u64,
        content: u8,
        flags: u8,
        out: &mut [u8],
    ) -> Result<Answer, Refusal>
        ensures { Answers self (byte time content flags) out.old (returned self result) out.new }
    {
        self.check(out.len(), time, flags, 0)?;
        self.clock = time;
        if self.timed_out(time) {
            return Ok(self.late(time, content, flags, out));
        }
        Ok(self.heard(time, content, flags, out))
    }

    // A clean byte that goes into the open block and does nothing else: it is heard, finds no time-out and does not fill the block.
    pub fn join(mut self, time: u64, content: u8) -> Result<Joined, Refusal>
        ensures { tried self result ≡ joining self time content }
    {
        // No output is lent: 18, so that room is no reason to refuse.
        self.check(18, time, 0, 0)?;
        if !self.hears(time) {
            return Ok(Joined::Other);
        }
        if self.next_fills() {
            return Ok(Joined::Fills);
        }
        self.clock = time;
        Ok(Joined::Grown(self.grown(time, content)))
    }

    // A clean byte that is heard, finds no time-out and fills the block: what `byte` does. Any other changes nothing.
    pub fn fill(mut self, time: u64, content: u8, out: &mut [u8]) -> Result<Answer, Refusal>
        ensures { OnlyIf (filling (length out.old) self time content)
            self (byte time content 0) out.old (returned self result) out.new }
    {
        self.check(out.len(), time, 0, 0)?;
        if !self.hears(time) || !self.next_fills() {
            return Ok(self.silent());
        }
        self.clock = time;
        Ok(self.full(time, content, out))
    }

    // A flagged byte, whatever its content, that is heard and finds no time-out: what `byte` does. Any other changes nothing.
    pub fn strike(mut self, time: u64, flags: u8, out: &mut [u8]) -> Result<Answer, Refusal>
        ensures { (content : ℕ) → OnlyIf (striking (length out.old) self time flags)
            self (byte time content flags) out.old (returned self result) out.new }
    {
        self.check(out.len(), time, flags, 0)?;
        if flags == 0 || !self.hears(time) {
            return Ok(self.silent());
        }
        self.clock = time;
        Ok(self.nak(flags, time, out))
    }

    pub fn look(mut self, time: u64, out: &mut [u8]) -> Result<Answer, Refusal>
        ensures { Answers self (look time) out.old (returned self result) out.new }
    {
        self.check(out.len(), time, 0, 0)?;
        self.clock = time;
        Ok(self.looked(time, out))
    }

    // `position` and `cassette` are alike but for the change: a function for both would take it as a closure, with a contract over it, and
    // be no plainer. Each call begins with the same two lines; `join`, `fill` and `strike` test more between them, so that a function for
    // the other four would save a line in each and be no plainer.
    pub fn position(mut self, time: u64, place: u32, out: &mut [u8]) -> Result<Answer, Refusal>
        ensures { Answers self (position time place) out.old (returned self result) out.new }
    {
        self.check(out.len(), time, 0, place)?;
        self.clock = time;
        let mut answer = self.looked(time, out);
        answer.deck.settings.position = place;
        Ok(answer)
    }

    pub fn cassette(mut self, time: u64, out: &mut [u8]) -> Result<Answer, Refusal>
        ensures { Answers self (cassette time) out.old (returned self result) out.new }
    {
        self.check(out.len(), time, 0, 0)?;
        self.clock = time;
        let mut answer = self.looked(time, out);
        answer.deck.settings = answer.deck.settings.load();
        Ok(answer)
    }
}
