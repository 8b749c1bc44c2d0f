// Blocks: a first byte, a command byte, up to 15 data bytes and a checksum.
#![tactic(auto)]

ghost use Rattle.std.specs.Prelude.{◌≡◌};
ghost use Rattle.refusal.specs.Numbers.{no_of};
ghost use Rattle.refusal.specs.Written.{written_by};
ghost use Rattle.block.specs.Block.{checksum};
ghost use Rattle.block.specs.Read.{fields_by, read_no, read_fields, read_data};
ghost use Rattle.block.specs.Write.{written, written_out};

use refusal::Refusal;

// What the reader tells of a block.
#[derive(Clone, Copy, Debug, PartialEq, Eq)]
pub struct Header {
    pub group: u8,
    pub command: u8,
    pub count: u8,
}

#[tactic(auto, using(crate::proofs::Sums::checksum_folds))]
pub fn sum(bytes: &[u8]) -> u8
    ensures { result ≡ checksum bytes.now }
{
    bytes
        .iter()
        .fold(0, |total: u8, byte| total.wrapping_add(*byte))
}

#[tactic(auto, unfolding(crate::specs::Read::read_no))]
fn check(block: &[u8]) -> Result<(), Refusal>
    ensures { no_of result ≡ read_no block.now }
{
    let [first, _, .., last] = *block else {
        return Err(Refusal::Length);
    };
    if block.len() != usize::from(first & 15) + 3 {
        return Err(Refusal::Length);
    }
    if sum(&block[..block.len() - 1]) != last {
        return Err(Refusal::Sum);
    }
    Ok(())
}

#[tactic(auto, using(refusal::proofs::Numbers::refuses, crate::proofs::Reading::reading), unfolding(crate::specs::Read::read_fields))]
pub fn fields(bytes: &[u8]) -> Result<Header, Refusal>
    ensures { fields_by result ≡ read_fields bytes.now }
{
    check(bytes)?;
    let first = bytes[0];
    Ok(Header {
        group: first >> 4,
        command: bytes[1],
        count: first & 15,
    })
}

// The data of a block that reads, as that part of it; of any other bytes an empty part.
#[tactic(auto, using(refusal::proofs::Numbers::refuses, crate::proofs::Reading::reading), unfolding(crate::specs::Read::read_data))]
pub fn data(bytes: &[u8]) -> &[u8]
    ensures { result.now ≡ read_data bytes.now }
{
    match check(bytes) {
        Ok(()) => &bytes[2..bytes.len() - 1],
        Err(_) => &bytes[..0],
    }
}

// The block of these fields, at the front of the output.
#[tactic(auto, unfolding(crate::specs::Write::write_no, crate::specs::Write::written, crate::specs::Write::written_out))]
pub fn write(group: u8, command: u8, data: &[u8], out: &mut [u8]) -> Result<usize, Refusal>
    ensures answer { written_by result ≡ written group «data».now out.old }
    ensures output { out.new ≡ written_out group command «data».now out.old }
{
    if 15 < group || 15 < data.len() {
        return Err(Refusal::Field);
    }
    let end = data.len() + 2;
    if out.len() <= end {
        return Err(Refusal::Room);
    }
    out[0] = group << 4 | data.len() as u8;
    out[1] = command;
    out[2..end].copy_from_slice(data);
    out[end] = sum(&out[..end]);
    Ok(end + 1)
}
