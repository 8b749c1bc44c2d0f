// Hands the records that standard input has to the marker, and prints what it says of each: its numbers, and the text of them.
//
// A case of the input is the record's length and the number of table places to lend, four bytes each, lowest first, and then the record.
// tests/mark_cases.py makes the cases, and two models from document 01 alone the lines to expect.
#![tactic(auto)]

mod show;

use std::io::Read;

// Takes one case, or none where the input has no more. complete_cases has cases of the same form, but lends other buffers and makes
// another call.
fn next(rt: &impl Print, input: &mut impl Read) -> Option<()> {
    // At once: of a message what is not read is lost.
    let head = streams::read_array::<_, 8>(input)?;
    let mut head = &head[..];
    let size = cases::next_size(&mut head)?;
    let places = cases::next_size(&mut head)?;
    // Room for a record and a table that are larger than the largest.
    let mut space = [0; 65552];
    let mut table = [show::FILL; 6000];
    let table = cases::leading(&mut table, places);
    let record = streams::read_front(input, cases::leading(&mut space, size));
    let marked = marker::mark(record, table).into();
    show::marked(rt, marked, table);
    Some(())
}

// A function for this loop, shared with the other test programs, would be the bound and the closure alone.
fn main(rt: HostRuntime) {
    let mut input = rt.stdin();
    let _ = (0..cases::MOST).try_for_each(|_| next(&rt, &mut input));
}
