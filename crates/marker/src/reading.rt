// The entries one after the other, to the first fault or the end.
ghost use Rattle.std.specs.Prelude.{◌≡◌, cond, ◌+◌, ◌<◌, ◌^◌, length, set};
ghost use Rattle.marker.specs.Steps.{new_marker};
ghost use Rattle.marker.specs.Marks.{marked_by, Roomy, Leads, Passes, Runs};

use super::light::Weighed;
use super::{Fault, Findings, Marker, Stepped};
use cursor::Taken;

// What is known before the entry at `place`: the marker, and how many turn starts stand at the front of the table. Memory is fixed: the
// table is lent, and no list that grows.
#[derive(Clone, Copy)]
struct Reading {
    marker: Marker,
    place: usize,
    count: usize,
}

// What is ahead where the light entries end: an entry that fills the block, another one, or the record's end. Not `Weighed`, which has the
// marker of a light entry, and no entry.
#[derive(Clone, Copy)]
enum Ahead {
    Fills(Taken),
    Heavy(Taken),
    End,
}

impl Reading {
    fn start() -> Reading
        ensures { result ≡ record { marker = new_marker; place = 0; count = 0 } }
    {
        Reading {
            marker: Marker::start(),
            place: 0,
            count: 0,
        }
    }

    // The entry has been taken, and the next is at `after`.
    fn on(mut self, stepped: Stepped, after: usize, table: &mut [u32]) -> Reading
        requires { (self.place < 2 ^ 32) × (self.count < length table.old) }
        ensures reading { result
            ≡ record { marker = stepped.marker; place = after; count = cond stepped.begins (self.count + 1) self.count } }
        ensures table { table.new ≡ cond stepped.begins (set table.old self.count self.place) table.old }
    {
        if stepped.begins {
            table[self.count] = self.place as u32;
            self.count += 1;
        }
        self.marker = stepped.marker;
        self.place = after;
        self
    }

    fn found(self, fault: Option<Fault>) -> Findings
        ensures { result ≡ record { fault = fault; place = self.place; count = self.count } }
    {
        Findings {
            fault,
            place: self.place,
            count: self.count,
        }
    }

    // To the first entry that is not light, or to the end.
    // A speed bar: in one loop with `run` the marker takes a quarter longer. By place, since a `for` over the entries would be no plainer:
    // where it stops, place and entry are handed on, and the place would be counted beside it.
    fn pass(mut self, bytes: &[u8], table: &mut [u32]) -> (Reading, Ahead)
        requires { Roomy bytes.now table.old × Leads bytes.now table.old table.old self.marker self.count self.place }
        ensures { Passes bytes.now table.old self result table.new }
    {
        while let Ok(taken) = cursor::take(bytes, self.place) {
            match self.marker.light(taken.entry) {
                Weighed::Light(stepped) => self = self.on(stepped, taken.place, table),
                Weighed::Fills => return (self, Ahead::Fills(taken)),
                Weighed::Heavy => return (self, Ahead::Heavy(taken)),
            }
        }
        (self, Ahead::End)
    }
}

pub(super) fn run(bytes: &[u8], table: &mut [u32]) -> Findings
    requires { Roomy bytes.now table.old }
    ensures { Runs bytes.now table.old (marked_by (Ok result)) table.new }
{
    let mut reading = Reading::start();
    loop {
        let (passed, ahead) = reading.pass(bytes, table);
        match ahead {
            Ahead::Fills(taken) => {
                reading = passed.on(passed.marker.fill(taken.entry), taken.place, table);
            }
            Ahead::Heavy(taken) => match passed.marker.other(taken.entry) {
                Ok(stepped) => reading = passed.on(stepped, taken.place, table),
                Err(fault) => return passed.found(Some(fault)),
            },
            Ahead::End => return passed.found(passed.marker.ends().err()),
        }
    }
}
