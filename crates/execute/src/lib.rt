// What a full block does to the settings, and the deck's replies.
#![tactic(auto)]

ghost use Rattle.std.specs.Prelude.{◌≡◌, [], ◌∷◌};
ghost use Rattle.refusal.specs.Written.{written_by};
ghost use Rattle.block.specs.Write.{written, written_out};
ghost use Rattle.execute.specs.Replies.{opens_quiet};
ghost use Rattle.execute.specs.Execute.{why_of, block_in, execute, shown, shown_out, done_by, executed, executed_out};

use packed::Tail;
use refusal::Refusal;
use settings::Settings;

mod answers;
mod full;

// Why a full block gets a NAK: the byte that says so.
#[derive(Clone, Copy, Debug, PartialEq, Eq)]
enum Why {
    Undefined = 0x01,
    Checksum = 0x04,
}

impl Why {
    // A cast, as in `Refusal::number`: a `From` for `u8` would be no plainer, and would not say what the byte is.
    fn byte(self) -> u8
        ensures { result ≡ why_of self }
    {
        self as u8
    }
}

// No listed command has more data than four bytes: with the command byte, five.
const LISTED: usize = 5;

// A full block in parts: its first byte, the latest `count` bytes of `tail`, and its last byte. The tail has its count beside it, as the
// deck keeps them. A speed bar: through an array and `block::fields` the deck took a third longer.
#[derive(Clone, Copy)]
pub struct FullBlock {
    pub first: u8,
    pub tail: Tail,
    pub count: usize,
    pub last: u8,
}

// The length of the reply, whose bytes lie in the lent output, whether it opens a quiet, and the settings. A speed bar: with the settings
// first they are copied by whole words, and one of these is put together and taken apart at each entry, 25 instructions and more.
#[derive(Clone, Copy, Debug, PartialEq, Eq)]
pub struct Executed {
    pub len: usize,
    pub quiets: bool,
    pub settings: Settings,
}

// Whether the NAK with this byte, which may be any, opens a quiet: each does.
#[tactic(auto, unfolding(crate::specs::Replies::opens_quiet))]
pub fn opens_quiet(_why: u8) -> bool
    ensures { result ≡ opens_quiet _why }
{
    true
}

// The NAK with this byte, which may be any, at the front of the output.
pub fn nak(why: u8, out: &mut [u8]) -> Result<usize, Refusal>
    ensures { (written_by result ≡ written 0x1 (why ∷ []) out.old) × (out.new ≡ written_out 0x1 0x12 (why ∷ []) out.old) }
{
    block::write(0x1, 0x12, &[why], out)
}

// What `execute` does, with room for the longest reply.
fn run(settings: Settings, block: FullBlock, out: &mut [u8; 18]) -> Executed
    ensures answer { result ≡ shown (execute settings (block_in block)) }
    ensures output { out.new ≡ shown_out (execute settings (block_in block)) out.old }
{
    if LISTED < block.count || block.count != usize::from(block.first & 15) + 1 {
        return answers::refuse(settings, block.why(), out);
    }
    let short = block.short();
    if short.sum(block.first) != block.last {
        return answers::refuse(settings, Why::Checksum, out);
    }
    let kind = command::find(block.first, short.command);
    answers::carry(kind, settings, short.data, out)
}

// What a full block does to the settings, with the reply at the front of the output.
pub fn execute(settings: Settings, block: FullBlock, out: &mut [u8]) -> Result<Executed, Refusal>
    ensures answer { done_by settings result ≡ executed settings (block_in block) out.old }
    ensures output { out.new ≡ executed_out settings (block_in block) out.old }
{
    match out.first_chunk_mut::<18>() {
        Some(front) => Ok(run(settings, block, front)),
        None => Err(Refusal::Room),
    }
}
