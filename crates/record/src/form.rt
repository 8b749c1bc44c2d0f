// Whether an entry is well formed.
ghost use Rattle.std.specs.Prelude.{◌≡◌};
ghost use Rattle.record.specs.Entries.{fits, formed};

use super::{Entry, Kind};
use deck::{LAST_TIME, flags_fit};
use timecode::DAY;

// This test and the table of `meant` stay two: two rules of the papers, which differ in two of four kinds; one over the other is no plainer.
// A speed bar: with a `match` of the last three kinds this takes a third more time, with one of all four twice, by a jump that is not foreseen.
#[tactic(auto, using(crate::proofs::Forms::fits_by))]
fn fits(e: Entry) -> bool
    ensures { result ≡ fits e.kind e }
{
    if e.kind == Kind::Controller as u8 {
        return flags_fit(e.flags) && e.content < 256;
    }
    if e.flags != 0 {
        return false;
    }
    if e.kind == Kind::Deck as u8 {
        return e.content < 256;
    }
    if e.kind == Kind::Position as u8 {
        return e.content < DAY;
    }
    e.kind == Kind::Cassette as u8 && e.content == 0
}

pub fn formed(e: Entry) -> bool
    ensures { result ≡ formed e }
{
    fits(e) && e.time <= LAST_TIME
}
