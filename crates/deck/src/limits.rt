// The tests of the deck's calls.
ghost use Rattle.std.specs.Prelude.{◌≡◌};
ghost use Rattle.refusal.specs.Numbers.{no_of};
ghost use Rattle.deck.specs.Calls.{flags_fit, refusal};

use crate::{Deck, LAST_TIME};
use refusal::Refusal;
use timecode::DAY;

// Whether a byte may have these flags: no bit outside 70.
#[tactic(auto, using(crate::proofs::Flags::mask_fits))]
pub fn flags_fit(flags: u8) -> bool
    ensures { result ≡ flags_fit flags }
{
    flags & 0x8F == 0
}

impl Deck {
    // In document 01's order: an output with so much room, a time, flags and a position, which are 0 where the event has none. What may not
    // change: `refusal` takes all of them.
    pub(super) fn check(self, room: usize, time: u64, flags: u8, place: u32) -> Result<(), Refusal>
        ensures { no_of result ≡ refusal room self.clock time flags place }
    {
        if room < 18 {
            return Err(Refusal::Room);
        }
        if LAST_TIME < time {
            return Err(Refusal::Late);
        }
        if time < self.clock {
            return Err(Refusal::Back);
        }
        if !flags_fit(flags) {
            return Err(Refusal::Flags);
        }
        if DAY <= place {
            return Err(Refusal::Place);
        }
        Ok(())
    }
}
