// Line records: entries of 12 bytes.
#![tactic(auto)]

ghost use Rattle.std.specs.Prelude.{◌≡◌};
ghost use Rattle.refusal.specs.Written.{written_by};
ghost use Rattle.record.specs.Bytes.{entry_of, bytes_of, is_record, fetched_by, read_at, written, written_out};

use deck::LAST_TIME;
pub use form::formed;
pub use handing::{hand, meant};
pub use kind::Kind;
use refusal::Refusal;

mod form;
mod handing;
mod kind;

const LONGEST: usize = 65532;

// The kind is a byte, and `kind()` says which it is, if any. What may not change: `write` takes any, and any bytes are read as an entry.
#[derive(Clone, Copy)]
pub struct Entry {
    pub kind: u8,
    pub flags: u8,
    pub content: u32,
    pub time: u64,
}

impl Entry {
    #[tactic(auto, using(crate::proofs::Bytes::by_byte))]
    fn from_bytes(bytes: &[u8; 12]) -> Entry
        ensures { result ≡ entry_of bytes.now }
    {
        let [kind, flags, a, b, c, d, t, u, v, w, x, y] = *bytes;
        Entry {
            kind,
            flags,
            content: u32::from_le_bytes([a, b, c, d]),
            time: u64::from_le_bytes([t, u, v, w, x, y, 0, 0]),
        }
    }

    // Of a time over six bytes, the lowest six.
    #[tactic(auto, using(crate::proofs::Bytes::put_bytes))]
    pub fn to_bytes(self) -> [u8; 12]
        ensures { result ≡ bytes_of self }
    {
        let [a, b, c, d] = self.content.to_le_bytes();
        let [t, u, v, w, x, y, _, _] = self.time.to_le_bytes();
        [self.kind, self.flags, a, b, c, d, t, u, v, w, x, y]
    }
}

// Whether a record may have so many bytes.
#[tactic(auto, unfolding(crate::specs::Bytes::is_record))]
pub fn is_record(size: usize) -> bool
    ensures { result ≡ is_record size }
{
    size % 12 == 0 && size <= LONGEST
}

// The entry at this number; refused where the bytes have no such whole entry. Bytes and number are the form that the papers name.
pub fn read(bytes: &[u8], place: usize) -> Result<Entry, Refusal>
    ensures { fetched_by result ≡ read_at bytes.now place }
{
    let (entries, _) = bytes.as_chunks();
    match entries.get(place) {
        Some(entry) => Ok(Entry::from_bytes(entry)),
        None => Err(Refusal::Record),
    }
}

// The entry's 12 bytes, at the front of the output.
#[tactic(auto, unfolding(crate::specs::Bytes::write_no, crate::specs::Bytes::written, crate::specs::Bytes::written_out))]
pub fn write(entry: Entry, out: &mut [u8]) -> Result<usize, Refusal>
    ensures answer { written_by result ≡ written entry out.old }
    ensures output { out.new ≡ written_out entry out.old }
{
    if out.len() < 12 {
        return Err(Refusal::Room);
    }
    if LAST_TIME < entry.time {
        return Err(Refusal::Late);
    }
    out[..12].copy_from_slice(&entry.to_bytes());
    Ok(12)
}
