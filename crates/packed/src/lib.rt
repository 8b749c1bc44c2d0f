// Bytes packed in numbers: the compiled code keeps these in registers, where it would copy an array from place to place.
#![tactic(auto)]

ghost use Rattle.std.specs.Prelude.{◌≡◌, [], ◌/◌, ◌<◌, drop, get_or};
ghost use Rattle.packed.specs.Numbers.{low_bytes};
ghost use Rattle.packed.specs.Packed.{unpacked, packed};

mod latest;

// 24 bytes, lowest first: eight in each number. `Tail` is a type of its own: over an array of numbers both would be what this crate is
// there to avoid.
#[derive(Clone, Copy)]
pub struct Packed {
    pub low: u64,
    pub mid: u64,
    pub high: u64,
}

// Bytes that came one after the other: the latest sixteen, the latest lowest, eight in each number.
#[derive(Clone, Copy)]
pub struct Tail {
    pub low: u64,
    pub high: u64,
}

// The byte at a place. A speed bar: by `to_le_bytes` and an index the deck takes a fortieth more instructions.
#[tactic(auto, using(crate::proofs::Numbers::masks))]
fn byte_of(number: u64, at: usize) -> u8
    requires { at < 8 }
    ensures { result ≡ get_or (low_bytes 8 number) at 0 }
{
    (number >> (at * 8) & 0xFF) as u8
}

impl Packed {
    // No bytes. A derived `default` would be no plainer: it says zeros, and no contract here would then say that these are no bytes.
    pub fn none() -> Packed
        ensures { result ≡ packed [] }
    {
        Packed {
            low: 0,
            mid: 0,
            high: 0,
        }
    }

    pub fn pack(b: [u8; 24]) -> Packed
        ensures { result ≡ packed b }
    {
        let (parts, _) = b.as_chunks();
        Packed {
            low: u64::from_le_bytes(parts[0]),
            mid: u64::from_le_bytes(parts[1]),
            high: u64::from_le_bytes(parts[2]),
        }
    }

    // The first byte.
    #[tactic(auto, unfolding(crate::specs::Numbers::low_bytes))]
    pub fn first(self) -> u8
        ensures { result ≡ get_or (unpacked self) 0 0 }
    {
        byte_of(self.low, 0)
    }

    // The bytes behind the first.
    #[tactic(auto, using(crate::proofs::Packing::shifted))]
    pub fn rest(self) -> Packed
        ensures { result ≡ packed (drop 1 (unpacked self)) }
    {
        Packed {
            low: self.low >> 8 | self.mid << 56,
            mid: self.mid >> 8 | self.high << 56,
            high: self.high >> 8,
        }
    }

    // The same of the lowest eight alone: the others stay. A speed bar: with `rest` for each byte the marker was slower than when it looked
    // each byte up at its place, with nothing moved.
    pub fn low_rest(self) -> Packed
        ensures { result ≡ record { low = self.low / 256; mid = self.mid; high = self.high } }
    {
        Packed {
            low: self.low >> 8,
            ..self
        }
    }
}
