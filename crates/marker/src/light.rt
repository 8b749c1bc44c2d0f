// Light entries: they give no reply and break no rule. Most entries of a record are such, and their loop, compiled, carries no settings.
ghost use Rattle.std.specs.Prelude.{◌≡◌, true};
ghost use Rattle.marker.specs.Steps.{Expected, Weighs};

use super::{Marker, Stepped};
use deck::{Joined, LAST_TIME};
use record::{Entry, Kind};

const CONTROLLER: u16 = Kind::Controller as u16;

const DECK: u16 = Kind::Deck as u16;

// A light entry is taken. Of one that is not, nothing is said but whether it fills the block.
#[derive(Clone, Copy)]
pub(super) enum Weighed {
    Light(Stepped),
    Fills,
    Heavy,
}

impl Marker {
    // The next byte of the awaited reply, in time, where no block is open.
    fn comes(self, e: Entry) -> bool
        ensures { result ≡ true → Expected self e }
    {
        e.time <= LAST_TIME
            && self.deck.clock <= e.time
            && e.time <= self.waits.latest
            && self
                .waits
                .next()
                .is_some_and(|next| e.content == next as u32)
            && self.deck.held == 0
    }

    // A deck byte.
    fn reply_byte(mut self, e: Entry) -> Weighed
        requires { (e.kind ≡ 1) × (e.flags ≡ 0) }
        ensures { Weighs self e result }
    {
        if !self.comes(e) {
            return Weighed::Heavy;
        }
        self.deck.clock = e.time;
        self.waits = self.waits.taken(e.time);
        Weighed::Light(Stepped {
            begins: false,
            marker: self,
        })
    }

    // A clean byte of a block that it does not fill, where no reply is awaited.
    fn block_byte(self, e: Entry) -> Weighed
        requires { (e.kind ≡ 0) × (e.flags ≡ 0) }
        ensures { Weighs self e result }
    {
        if 255 < e.content || self.waits.any() {
            return Weighed::Heavy;
        }
        match self.deck.join(e.time, e.content as u8) {
            Ok(Joined::Grown(deck)) => Weighed::Light(Stepped {
                begins: self.deck.held == 0,
                marker: Marker { deck, ..self },
            }),
            Ok(Joined::Fills) => Weighed::Fills,
            _ => Weighed::Heavy,
        }
    }

    pub(super) fn light(self, e: Entry) -> Weighed
        ensures { Weighs self e result }
    {
        // A speed bar: with kind and flags tested one after the other the marker takes a twentieth more instructions.
        match u16::from_le_bytes([e.kind, e.flags]) {
            CONTROLLER => self.block_byte(e),
            DECK => self.reply_byte(e),
            _ => Weighed::Heavy,
        }
    }
}
