// Bytes that come one after the other.
ghost use Rattle.std.specs.Prelude.{◌≡◌, [], ◌∷◌, get_or};
ghost use Rattle.packed.specs.Tail.{recent, kept};

use super::Tail;

impl Tail {
    // No byte has come. No derived `default`, for the reason in `Packed::none`.
    pub fn none() -> Tail
        ensures { result ≡ kept [] }
    {
        Tail { low: 0, high: 0 }
    }

    // A byte comes.
    #[tactic(auto, using(crate::proofs::Tails::pushed))]
    pub fn push(self, byte: u8) -> Tail
        ensures { result ≡ kept (byte ∷ recent self) }
    {
        Tail {
            low: self.low << 8 | u64::from(byte),
            high: self.high << 8 | self.low >> 56,
        }
    }

    // The byte that came so many bytes before the latest, 0 past the last that is kept.
    #[tactic(auto, using(crate::proofs::Tails::places))]
    pub fn at(self, back: usize) -> u8
        ensures { result ≡ get_or (recent self) back 0 }
    {
        match back {
            0..8 => super::byte_of(self.low, back),
            8..16 => super::byte_of(self.high, back - 8),
            _ => 0,
        }
    }
}
