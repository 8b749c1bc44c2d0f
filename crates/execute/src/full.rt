// The parts of a full block.
ghost use Rattle.std.specs.Prelude.{◌≡◌, ◌-◌, ◌≤◌, ◌∷◌, take, if◌then◌else◌, nat_eq};
ghost use Rattle.packed.specs.Tail.{recent, latest};
ghost use Rattle.block.specs.Block.{checksum};
ghost use Rattle.block.specs.Read.{read_no};
ghost use Rattle.execute.specs.Execute.{block_in, why_of};
ghost use Rattle.execute.specs.Replies.{undefined, bad_checksum};

use super::{FullBlock, Why};
use packed::Tail;

// The command byte and the data of a block that is short enough to be listed, with zeros past its data.
#[derive(Clone, Copy)]
pub(super) struct Short {
    pub command: u8,
    pub data: [u8; 4],
}

impl Short {
    // The checksum, with this first byte.
    pub(super) fn sum(self, first: u8) -> u8
        ensures { result ≡ checksum (first ∷ self.command ∷ self.«data») }
    {
        let [a, b, c, d] = self.data;
        block::sum(&[first, self.command, a, b, c, d])
    }
}

// The sum of the latest bytes.
fn total(tail: Tail, count: usize) -> u8
    ensures { result ≡ checksum (take count (recent tail)) }
{
    (0..count).fold(0, |sum: u8, back| sum.wrapping_add(tail.at(back)))
}

impl FullBlock {
    // The latest bytes, moved up in one number so that the first of them is the highest, and taken apart.
    pub(super) fn short(self) -> Short
        requires { (1 ≤ self.count) × (self.count ≤ 5) }
        ensures bytes { latest self.count self.tail ≡ result.command ∷ take (self.count - 1) result.«data» }
        ensures sum { checksum (latest self.count self.tail) ≡ checksum (result.command ∷ result.«data») }
    {
        let moved = self.tail.low << ((8 - self.count) * 8);
        let [command, a, b, c, d, ..] = moved.to_be_bytes();
        Short {
            command,
            data: [a, b, c, d],
        }
    }

    // Why it is refused, where it is too long to be listed, or not as long as its first byte says.
    pub(super) fn why(self) -> Why
        ensures { why_of result
            ≡ (if nat_eq (read_no (block_in self)) 0 then undefined else bad_checksum) }
    {
        // Of a longer block the sixteen that the tail keeps. `run` has the same test: a function for both would be no shorter.
        let count = self.count.min(16);
        if count != usize::from(self.first & 15) + 1 {
            return Why::Checksum;
        }
        if self.first.wrapping_add(total(self.tail, count)) != self.last {
            return Why::Checksum;
        }
        Why::Undefined
    }
}
