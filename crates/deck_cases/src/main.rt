// Hands the events that standard input asks for to decks, and prints their answers and how each deck stands at the end.
//
// A call of the input is a letter, the size of the output to lend, a time in eight bytes, a length and that many argument bytes. Numbers
// stand lowest byte first. tests/deck_cases.py makes the calls, and tests/deck.py, from document 01 alone, the lines to expect.
#![tactic(auto)]

use deck::Deck;
use std::io::Read;

mod events;
mod show;

// The end of a sequence. The next one has a deck of its own.
fn end(rt: &impl Print, deck: Deck) -> Deck {
    show::state(rt, deck);
    Deck::power_on()
}

// Takes one call, and hands on the deck after it, or none where the input has no more. Each test program has its own, since their cases
// have other forms.
fn next(rt: &impl Print, input: &mut impl Read, deck: Deck) -> Option<Deck> {
    // At once: of a message what is not read is lost.
    let [letter, room, a, b, c, d, e, f, g, h, size] = streams::read_array::<_, 11>(input)?;
    let time = u64::from_le_bytes([a, b, c, d, e, f, g, h]);
    let mut space = [0; 255];
    let args = &mut space[..usize::from(size)];
    let args = streams::read_front(input, args);
    // A table of functions is no plainer: not all calls take the same arguments.
    Some(match letter {
        b'b' => events::bytes(rt, deck, room, time, args),
        b'e' => end(rt, deck),
        b'l' => events::look(rt, deck, room, time),
        b'p' => events::position(rt, deck, room, time, args),
        _ => events::cassette(rt, deck, room, time),
    })
}

// A function for this loop, shared with the other test programs, would be the bound and the closure alone.
fn main(rt: HostRuntime) {
    let mut input = rt.stdin();
    let _ = (0..cases::MOST).try_fold(Deck::power_on(), |deck, _| next(&rt, &mut input, deck));
}
