// A cursor on a line record: it knows where it stands, and gives the entries one after the other.
#![tactic(auto)]

ghost use Rattle.std.specs.Prelude.{◌≡◌};
ghost use Rattle.std.specs.Iterator.{item_count};
ghost use Rattle.cursor.specs.Cursors.{standing, entries_left, Moves, taken_by, taken_at};

use record::Entry;
use refusal::Refusal;

// The record, and the number of an entry: the form that the papers name.
#[derive(Drop)]
pub struct Cursor<'a> {
    bytes: &'a [u8],
    place: usize,
}

// An entry, and the place after it.
#[derive(Clone, Copy)]
pub struct Taken {
    pub entry: Entry,
    pub place: usize,
}

impl<'a> Cursor<'a> {
    // A cursor that stands at this place.
    pub fn at(bytes: &'a [u8], place: usize) -> Cursor<'a>
        ensures { result ≡ standing bytes.entry place }
    {
        Cursor { bytes, place }
    }
}

impl<'a> Iterator for Cursor<'a> {
    type Item = Entry;

    ghost next_gives = { Moves };

    ghost remaining = { item_count entries_left };

    // The entry where the cursor stands; the cursor moves on by one entry. At the end it stays.
    fn next(&mut self) -> Option<Entry> {
        let entry = record::read(self.bytes, self.place).ok()?;
        self.place += 1;
        Some(entry)
    }
}

// The entry at this place, read through a cursor, and where the cursor stands then: for who keeps the place and no cursor, as the marker's
// loops do. Slice and number, as in `record::read`: the form that the papers name.
pub fn take(bytes: &[u8], place: usize) -> Result<Taken, Refusal>
    ensures { taken_by place result ≡ taken_at bytes.now place }
{
    let mut cursor = Cursor::at(bytes, place);
    let entry = cursor.next().ok_or(Refusal::Record)?;
    Ok(Taken {
        entry,
        place: cursor.place,
    })
}
