// Hands the records that standard input has to the call that completes them, and prints what it says of each, with what it wrote.
//
// A case of the input is the record's length and the number of output bytes to lend, four bytes each, lowest first, and then the record.
// tests/complete.py makes the cases, and a model from the papers alone what to expect.
#![tactic(auto)]

mod show;

use std::io::Read;

// Takes one case, or none where the input has no more. mark_cases has cases of the same form, but lends other buffers and makes another
// call.
fn next(rt: &impl Print, input: &mut impl Read) -> Option<()> {
    // At once: of a message what is not read is lost.
    let head = streams::read_array::<_, 8>(input)?;
    let mut head = &head[..];
    let size = cases::next_size(&mut head)?;
    let room = cases::next_size(&mut head)?;
    // Room for a record and an output that are larger than the largest.
    let mut space = [0; 65552];
    let mut out = [cases::BLANK; 458768];
    let out = cases::leading(&mut out, room);
    let record = streams::read_front(input, cases::leading(&mut space, size));
    show::written(rt, completion::complete(record, out), out);
    Some(())
}

// A function for this loop, shared with the other test programs, would be the bound and the closure alone.
fn main(rt: HostRuntime) {
    let mut input = rt.stdin();
    let _ = (0..cases::MOST).try_for_each(|_| next(&rt, &mut input));
}
