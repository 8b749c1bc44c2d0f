// One entry: the tests of document 01 in their order, and then the entry itself.
ghost use Rattle.std.specs.Prelude.{◌≡◌, true, false, not, ◌&&◌, ◌≤◌, ◌<◌, ◌^◌, leb};
ghost use Rattle.timecode.specs.Time.{day};
ghost use Rattle.deck.specs.Line.{byte, look, position, cassette, is_open, looked, answers};
ghost use Rattle.deck.specs.Calls.{view, returned, flags_fit};
ghost use Rattle.record.specs.Entries.{formed, is_controller};
ghost use Rattle.deck.specs.Joins.{fills};
ghost use Rattle.marker.specs.Faults.{fault_in};
ghost use Rattle.marker.specs.Steps.{awaited, heard, late_fault, Prompt, Timed, Acts, Does, stepped, stepped_by, Steps, fills_block};

use super::light::Weighed;
use super::{Fault, Marker, Stepped};
use deck::{Answer, Joined};
use record::{Entry, Kind};
use refusal::Refusal;

// `Timed`, and a time below 2^48 (in reply.rt too), are clauses and no types: a marker that has been told the time would be no plainer,
// made in `other` and taken apart in each.
impl Marker {
    // The deck has answered.
    fn after(self, answer: Result<Answer, Refusal>, out: [u8; 24]) -> Marker
        requires { Prompt (returned self.deck answer) }
        ensures deck { result.deck ≡ (returned self.deck answer).deck }
        ensures waits { awaited result.waits ≡ heard (returned self.deck answer).first out (awaited self.waits) }
    {
        let Answer { deck, first, .. } = answer.unwrap();
        Marker {
            deck,
            waits: self.waits.after(first, out),
        }
    }

    // The deck is told the time: it may find a time-out.
    // With `moved`, `loaded` and `fill` as one function over a closure, each would still be the closure that names the deck's method.
    fn look(self, time: u64) -> Marker
        requires { (self.deck.clock ≤ time) × (time < 2 ^ 48) }
        ensures { Acts self time (looked (view self.deck) time) result }
    {
        let mut out = [0; 24];
        self.after(self.deck.look(time, &mut out), out)
    }

    // The deck is told a controller byte that does not fill the block, after the look.
    fn hear(self, time: u64, content: u8, flags: u8) -> Marker
        requires timed { Timed self time }
        requires fit { flags_fit flags ≡ true }
        requires unfilled { flags ≡ 0 → fills (view self.deck) time content ≡ false }
        ensures { Acts self time (answers (view self.deck) (byte time content flags)) result }
    {
        if flags != 0 {
            let mut out = [0; 24];
            return self.after(self.deck.strike(time, flags, &mut out), out);
        }
        match self.deck.join(time, content) {
            Ok(Joined::Grown(deck)) => Marker { deck, ..self },
            _ => self,
        }
    }

    // The deck is told a position, after the look.
    fn moved(self, time: u64, place: u32) -> Marker
        requires { Timed self time × (place < day) }
        ensures { Acts self time (answers (view self.deck) (position time place)) result }
    {
        let mut out = [0; 24];
        self.after(self.deck.position(time, place, &mut out), out)
    }

    // The deck is told of a cassette, after the look.
    fn loaded(self, time: u64) -> Marker
        requires { Timed self time }
        ensures { Acts self time (answers (view self.deck) (cassette time)) result }
    {
        let mut out = [0; 24];
        self.after(self.deck.cassette(time, &mut out), out)
    }

    // The tests after the look.
    #[tactic(auto, using(crate::proofs::Tests::late_by))]
    fn fault(self, e: Entry) -> Result<(), Fault>
        ensures { fault_in result ≡ late_fault (view self.deck) (awaited self.waits) e }
    {
        let Some(next) = self.waits.next() else {
            // A speed bar: with a `match` here the marker takes a twentieth more instructions on entries that are not light.
            if e.kind() == Some(Kind::Deck) {
                return Err(Fault::Unawaited);
            }
            return Ok(());
        };
        if self.waits.latest < e.time {
            return Err(Fault::Overdue);
        }
        match e.kind() {
            Some(Kind::Deck) if e.content != next as u32 => Err(Fault::Differs),
            Some(Kind::Controller) if self.deck.free <= e.time => Err(Fault::Interrupts),
            _ => Ok(()),
        }
    }

    // Whether the entry begins a turn, after the look.
    fn begins(self, e: Entry) -> bool
        ensures { result ≡ is_controller e.kind && (not (is_open (view self.deck).block) && leb self.deck.free e.time) }
    {
        e.kind() == Some(Kind::Controller) && self.deck.held == 0 && self.deck.free <= e.time
    }

    // The entry itself, after the look.
    fn act(self, e: Entry) -> Marker
        requires formed { formed e ≡ true }
        requires timed { Timed self e.time }
        requires unfilled { e.kind ≡ 0 → e.flags ≡ 0 → fills (view self.deck) e.time e.content ≡ false }
        ensures { Does self e result }
    {
        // A speed bar: with this one among the others, or with tests for all, the marker takes a twentieth more instructions where it reads
        // controller bytes in a quiet. Its arm below is not reached.
        if e.kind == Kind::Controller as u8 {
            return self.hear(e.time, e.content as u8, e.flags);
        }
        match e.kind() {
            Some(Kind::Controller) => self,
            Some(Kind::Deck) => Marker {
                waits: self.waits.taken(e.time),
                ..self
            },
            Some(Kind::Position) => self.moved(e.time, e.content),
            Some(Kind::Cassette) => self.loaded(e.time),
            None => unreachable!(),
        }
    }

    // An entry that fills the block, where no reply is awaited: it breaks no rule.
    pub(super) fn fill(self, e: Entry) -> Stepped
        requires { fills_block self e ≡ true }
        ensures { Steps self e (stepped result) }
    {
        let mut out = [0; 24];
        Stepped {
            begins: false,
            marker: self.after(self.deck.fill(e.time, e.content as u8, &mut out), out),
        }
    }

    // Any other entry.
    pub(super) fn other(self, e: Entry) -> Result<Stepped, Fault>
        requires { fills_block self e ≡ false }
        ensures { Steps self e (stepped_by self result) }
    {
        if !record::formed(e) {
            return Err(Fault::Malformed);
        }
        if e.time < self.deck.clock {
            return Err(Fault::Falls);
        }
        let now = self.look(e.time);
        now.fault(e)?;
        Ok(Stepped {
            begins: now.begins(e),
            marker: now.act(e),
        })
    }

    // The marker after this entry, or the entry's fault.
    pub fn step(self, e: Entry) -> Result<Stepped, Fault>
        ensures { Steps self e (stepped_by self result) }
    {
        match self.light(e) {
            Weighed::Light(stepped) => Ok(stepped),
            Weighed::Fills => Ok(self.fill(e)),
            Weighed::Heavy => self.other(e),
        }
    }
}
