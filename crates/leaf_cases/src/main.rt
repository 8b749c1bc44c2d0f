// Makes the calls that standard input asks for, and prints each with what it returned, one to a line.
//
// A case of the input is a letter, a length and that many argument bytes. tests/leaves.py makes the cases, and from document 01 alone
// the lines to expect.
#![tactic(auto)]

mod block_cases;
mod line_cases;
mod show;
mod speed_cases;
mod timecode_cases;

use std::io::Read;

fn call(rt: &impl Print, letter: u8, args: &[u8]) {
    // A table of functions is no plainer: it would have these lines too, and a search.
    match letter {
        b'l' => line_cases::receive(rt, args),
        b's' => block_cases::sum(rt, args),
        b'r' => block_cases::read(rt, args),
        b'w' => block_cases::write(rt, args),
        b'p' => timecode_cases::position(rt, args),
        b't' => timecode_cases::time(rt, args),
        b'n' => timecode_cases::frame(rt, b"frame_on", args, timecode::frame_on),
        b'k' => timecode_cases::frame(rt, b"frame_back", args, timecode::frame_back),
        b'v' => speed_cases::speed(rt, args),
        _ => show::text(rt, b"unknown"),
    }
    show::text(rt, b"\n");
}

// Takes one case, or none where the input has no more. Each test program has its own, since their cases have other forms.
fn next(rt: &impl Print, input: &mut impl Read) -> Option<()> {
    let [letter, size] = streams::read_array::<_, 2>(input)?;
    let mut space = [0; 255];
    let args = &mut space[..usize::from(size)];
    call(rt, letter, streams::read_front(input, args));
    Some(())
}

// A function for this loop, shared with the other test programs, would be the bound and the closure alone.
fn main(rt: HostRuntime) {
    let mut input = rt.stdin();
    let _ = (0..cases::MOST).try_for_each(|_| next(&rt, &mut input));
}
