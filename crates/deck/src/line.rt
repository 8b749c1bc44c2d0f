// The line: time-out, quiet and the open block. Every function here is called after the tests of a call. What five of them ask for,
// `Admitted`, is a clause: a type of the time and the lent output that keeps it would be no plainer, made once and taken apart in each.
ghost use Rattle.std.specs.Prelude.{◌≡◌, ℕ, true, not, ◌&&◌, [], ◌∷◌, ◌++◌, ◌+◌, ◌≤◌, ◌<◌, ◌^◌, leb, length};
ghost use Rattle.std.specs.Prelude.{None};
ghost use Rattle.execute.specs.Execute.{execute};
ghost use Rattle.deck.specs.Line.{byte, deck, free_after, timed_out, in_quiet, size, voided, looked, replied, taken, received, answers};
ghost use Rattle.deck.specs.Calls.{view, Made, Admitted, Comes};
ghost use Rattle.deck.specs.Joins.{grown};

use super::{Answer, Deck, Sent};
use execute::FullBlock;
use packed::Tail;

// A number. What may not change: `execute::nak` takes any byte, the flags of the line among them.
const TIME_OUT: u8 = 0x80;

impl Deck {
    pub(super) fn silent(self) -> Answer
        ensures { result ≡ record { deck = self; first = None; second = None } }
    {
        Answer {
            deck: self,
            first: None,
            second: None,
        }
    }

    pub(super) fn timed_out(self, time: u64) -> bool
        ensures { result ≡ timed_out (view self) time }
    {
        // A speed bar: with `saturating_sub` the deck takes four more instructions a byte, a twentieth.
        self.held != 0 && self.last < time && 10000 < time - self.last
    }

    // A byte at this time finds no time-out and is not in quiet.
    pub(super) fn hears(self, time: u64) -> bool
        ensures { result ≡ not (timed_out (view self) time) && not (in_quiet (view self) time) }
    {
        // A speed bar: with `timed_out` here the marker takes a twentieth more instructions; with this sum in `timed_out`, `byte` does.
        self.free <= time && (self.held == 0 || time <= self.last.saturating_add(10000))
    }

    // A clean byte, whatever its content, fills the block.
    pub(super) fn next_fills(self) -> bool
        ensures { (content : ℕ) → result ≡ leb (size ((view self).block ++ content ∷ [])) (length (view self).block + 1) }
    {
        (self.first % 16) as usize + 1 < self.held
    }

    // No block is open after a reply, which may open a quiet. A flag beside its time. What may not change: `free_after` takes both.
    fn closed(mut self, quiets: bool, due: u64) -> Deck
        requires { due < 2 ^ 63 }
        ensures { (view result ≡ deck [] self.last (free_after quiets due self.free) self.settings) × (result.clock ≡ self.clock)
            × Made result }
    {
        self.held = 0;
        self.first = 0;
        self.tail = Tail::none();
        if quiets {
            self.free = due + 10001;
        }
        self
    }

    pub(super) fn nak(self, why: u8, due: u64, out: &mut [u8]) -> Answer
        requires { (due < 2 ^ 63) × (18 ≤ length out.old) }
        ensures { Comes self (voided (view self) why due) out.old result out.new }
    {
        let len = execute::nak(why, out).unwrap();
        Answer {
            deck: self.closed(execute::opens_quiet(why), due),
            first: Some(Sent { len, due }),
            second: None,
        }
    }

    // Time-out comes first.
    pub(super) fn looked(self, time: u64, out: &mut [u8]) -> Answer
        requires { Admitted time out.old }
        ensures { Comes self (looked (view self) time) out.old result out.new }
    {
        if self.timed_out(time) {
            return self.nak(TIME_OUT, self.last + 10001, out);
        }
        self.silent()
    }

    // The first byte of a block.
    fn begin(mut self, time: u64, content: u8) -> Deck
        ensures { (view result ≡ deck (content ∷ []) time self.free self.settings) × (result.clock ≡ self.clock) × Made result }
    {
        self.first = u64::from(content);
        self.tail = Tail::none();
        self.held = 1;
        self.last = time;
        self
    }

    // A byte more in a block that stays open.
    pub(super) fn grown(mut self, time: u64, content: u8) -> Deck
        requires { self.held ≤ 17 }
        ensures { result ≡ grown self time content }
    {
        if self.held == 0 {
            return self.begin(time, content);
        }
        self.tail = self.tail.push(content);
        self.held += 1;
        self.last = time;
        self
    }

    // The byte that fills the block.
    pub(super) fn full(mut self, time: u64, content: u8, out: &mut [u8]) -> Answer
        requires { (1 ≤ self.held) × Admitted time out.old }
        ensures { Comes self (replied (view self) time (execute self.settings ((view self).block ++ content ∷ [])))
            out.old result out.new }
    {
        let block = FullBlock {
            first: (self.first % 256) as u8,
            tail: self.tail,
            count: self.held - 1,
            last: content,
        };
        let done = execute::execute(self.settings, block, out).unwrap();
        self.last = time;
        self.settings = done.settings;
        Answer {
            deck: self.closed(done.quiets, time),
            first: Some(Sent {
                len: done.len,
                due: time,
            }),
            second: None,
        }
    }

    // A clean byte outside quiet.
    fn clean(self, time: u64, content: u8, out: &mut [u8]) -> Answer
        requires { Admitted time out.old }
        ensures { Comes self (taken (view self) ((view self).block ++ content ∷ []) time) out.old result out.new }
    {
        if self.next_fills() {
            return self.full(time, content, out);
        }
        self.grown(time, content).silent()
    }

    // A byte, where no time-out is due.
    pub(super) fn heard(self, time: u64, content: u8, flags: u8, out: &mut [u8]) -> Answer
        requires { Admitted time out.old }
        ensures { Comes self (received (view self) time content flags) out.old result out.new }
    {
        if time < self.free {
            return self.silent();
        }
        if flags != 0 {
            return self.nak(flags, time, out);
        }
        self.clean(time, content, out)
    }

    // A byte that finds the time-out: it is in the quiet of the NAK, or gets a NAK of its own, or begins a block. Not by `heard`, which
    // asks for 18 bytes of output: behind the NAK there may be 14.
    pub(super) fn late(self, time: u64, content: u8, flags: u8, out: &mut [u8]) -> Answer
        requires { (timed_out (view self) time ≡ true) × Admitted time out.old }
        ensures { Comes self (answers (view self) (byte time content flags)) out.old result out.new }
    {
        let answer = self.nak(TIME_OUT, self.last + 10001, out);
        let deck = answer.deck;
        if time < deck.free {
            return answer;
        }
        if flags != 0 {
            let len = execute::nak(flags, &mut out[4..]).unwrap();
            return Answer {
                deck: deck.closed(execute::opens_quiet(flags), time),
                second: Some(Sent { len, due: time }),
                ..answer
            };
        }
        Answer {
            deck: deck.begin(time, content),
            ..answer
        }
    }
}
