// The marker: reads a line record and finds its turns, or the first place that no sound record can get past.
#![tactic(auto)]

ghost use Rattle.std.specs.Prelude.{◌≡◌, cond};
ghost use Rattle.record.specs.Machine.{resting};
ghost use Rattle.deck.specs.Calls.{view};
ghost use Rattle.marker.specs.Faults.{fault_in};
ghost use Rattle.marker.specs.Steps.{awaited, new_marker};
ghost use Rattle.marker.specs.Marks.{marked_by, Marks};

use deck::Deck;
pub use faults::Fault;
use packed::Packed;
use refusal::Refusal;

mod faults;
mod light;
mod reading;
mod reply;
mod step;

// The bytes of a reply that are still to come are the first `left` of `reply`, none where that is 0: an `Option` of a count would be no
// plainer. None is to come later than `latest`. A speed bar: they are numbers with a count; as an array they were copied from place to
// place, and most of the marker's time went into such copies.
#[derive(Clone, Copy)]
pub struct Waits {
    pub reply: Packed,
    pub left: usize,
    pub latest: u64,
}

// What is known between two entries. The deck's clock is the time of the entry before.
#[derive(Clone, Copy)]
pub struct Marker {
    pub deck: Deck,
    pub waits: Waits,
}

// An entry without a fault: whether it begins a turn, and the marker after it.
#[derive(Clone, Copy)]
pub struct Stepped {
    pub begins: bool,
    pub marker: Marker,
}

// What is found in a record: its fault, if it has one; the fault's place, or else the number of entries; and how many turn starts
// stand at the front of the table, which is lent: no heap.
#[derive(Clone, Copy, Debug, PartialEq, Eq)]
pub struct Findings {
    pub fault: Option<Fault>,
    pub place: usize,
    pub count: usize,
}

// The same in document 01's numbers: 0 for no refusal, and for no fault. What may not change: `report::text` takes any of them.
#[derive(Clone, Copy)]
pub struct Marked {
    pub no: u8,
    pub fault: u8,
    pub place: usize,
    pub count: usize,
}

impl From<Result<Findings, Refusal>> for Marked {
    ghost from_gives = { λ found marked. marked ≡ marked_by found };

    fn from(found: Result<Findings, Refusal>) -> Marked {
        match found {
            Ok(
                Findings {
                    fault,
                    place,
                    count,
                },
            ) => Marked {
                no: 0,
                fault: fault.map_or(0, |fault| fault.number()),
                place,
                count,
            },
            Err(refusal) => Marked {
                no: refusal.number(),
                fault: 0,
                place: 0,
                count: 0,
            },
        }
    }
}

impl Marker {
    // Before the first entry.
    pub fn start() -> Marker
        ensures { result ≡ new_marker }
    {
        Marker {
            deck: Deck::power_on(),
            waits: Waits {
                reply: Packed::none(),
                left: 0,
                latest: 0,
            },
        }
    }

    // A record may end here if no block is open and nothing is awaited.
    pub fn ends(self) -> Result<(), Fault>
        ensures { fault_in result ≡ cond (resting (view self.deck) (awaited self.waits)) 0 26 }
    {
        if self.deck.held != 0 || self.waits.any() {
            return Err(Fault::Stops);
        }
        Ok(())
    }
}

// Writes the turn starts to the front of the table, which needs a place for each entry.
pub fn mark(bytes: &[u8], table: &mut [u32]) -> Result<Findings, Refusal>
    ensures { Marks bytes.now table.old (marked_by result) table.new }
{
    if !record::is_record(bytes.len()) {
        return Err(Refusal::Record);
    }
    if table.len() < bytes.len() / 12 {
        return Err(Refusal::Room);
    }
    Ok(reading::run(bytes, table))
}
