// Line words: the 11 bits that carry one byte over the line.
#![tactic(auto)]

ghost use Rattle.std.specs.Prelude.{◌≡◌};
ghost use Rattle.line.specs.Word.{heard_by, received, line_flags};

use refusal::Refusal;

// Flags are bits of one byte, and both may be set: an enum would be no plainer.
const PARITY: u8 = 0x10;

const FRAMING: u8 = 0x40;

// A word's byte and its flags.
#[derive(Clone, Copy, Debug, PartialEq, Eq)]
pub struct Received {
    pub byte: u8,
    pub flags: u8,
}

// Overrun, flag 20, is in no word: the hardware tells it.
#[tactic(auto, using(crate::proofs::Parity::ones_masked, crate::proofs::Parity::stop_masked))]
fn flags_of(word: u32) -> u8
    ensures { result ≡ line_flags word }
{
    let ones = (word >> 1 & 0x1FF).count_ones();
    let parity = if ones % 2 == 0 { PARITY } else { 0 };
    let framing = if word >> 10 & 1 == 0 { FRAMING } else { 0 };
    parity | framing
}

#[tactic(auto, unfolding(crate::specs::Word::received))]
pub fn receive(word: u32) -> Result<Received, Refusal>
    ensures { heard_by result ≡ received word }
{
    if 0x7FF < word || word & 1 == 1 {
        return Err(Refusal::Word);
    }
    Ok(Received {
        byte: (word >> 1 & 0xFF) as u8,
        flags: flags_of(word),
    })
}
