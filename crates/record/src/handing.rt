// Handing an entry to the deck.
ghost use Rattle.std.specs.Prelude.{◌≡◌};
ghost use Rattle.deck.specs.Calls.{returned};
ghost use Rattle.record.specs.Entries.{meant, Hands};

use super::{Entry, Kind};
use deck::{Answer, Deck};
use refusal::Refusal;

// Whether the deck is handed the entry.
#[tactic(auto, using(crate::proofs::ByKind::meant_by))]
pub fn meant(e: Entry) -> bool
    ensures { result ≡ meant e.kind e }
{
    match e.kind() {
        Some(Kind::Controller) => e.content < 256,
        Some(Kind::Deck) => e.flags == 0 && e.content < 256,
        Some(Kind::Position) => e.flags == 0,
        Some(Kind::Cassette) => e.flags == 0 && e.content == 0,
        None => false,
    }
}

// What the deck answers to the entry, if it is meant for the deck.
#[tactic(auto, using(crate::proofs::ByKind::byte_small, crate::proofs::ByKind::of_kind))]
pub fn hand(deck: Deck, e: Entry, out: &mut [u8]) -> Result<Answer, Refusal>
    ensures { Hands deck e out.old (returned deck result) out.new }
{
    if !meant(e) {
        return Err(Refusal::Field);
    }
    match Kind::try_from(e.kind)? {
        Kind::Controller => deck.byte(e.time, e.content as u8, e.flags, out),
        Kind::Deck => deck.look(e.time, out),
        Kind::Position => deck.position(e.time, e.content, out),
        Kind::Cassette => deck.cassette(e.time, out),
    }
}
