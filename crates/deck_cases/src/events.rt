// The four events. Each lends an output of `room` bytes, prints what is answered and hands on the deck.
// `rt`, `deck`, `room` and `time` are no struct: it would be made once and taken apart in each function, which is no plainer.
use crate::show;
use deck::{Answer, Deck};
use refusal::Refusal;

fn event<F: FnOnce(&mut [u8]) -> Result<Answer, Refusal>>(
    rt: &impl Print,
    deck: Deck,
    room: u8,
    hand: F,
) -> Deck
    requires { F.IsAlwaysCallable hand }
{
    let mut space = [cases::BLANK; 64];
    let out = cases::leading(&mut space, room.into());
    let answer = hand(out);
    show::answer(rt, answer, out);
    answer.map_or(deck, |answer| answer.deck)
}

// A run of bytes. The arguments have four bytes for each: in two by how much it is later than the one before, its flags, its content.
pub(super) fn bytes(rt: &impl Print, mut deck: Deck, room: u8, mut time: u64, args: &[u8]) -> Deck {
    let (each, _) = args.as_chunks::<4>();
    for &[low, high, flags, content] in each {
        time = time.wrapping_add(u64::from(u16::from_le_bytes([low, high])));
        deck = event(rt, deck, room, |out| deck.byte(time, content, flags, out));
    }
    deck
}

pub(super) fn look(rt: &impl Print, deck: Deck, room: u8, time: u64) -> Deck {
    event(rt, deck, room, |out| deck.look(time, out))
}

// The arguments are the place in four bytes, 0 where they are missing.
pub(super) fn position(rt: &impl Print, deck: Deck, room: u8, time: u64, args: &[u8]) -> Deck {
    let place = cases::first_number(args);
    event(rt, deck, room, |out| deck.position(time, place, out))
}

pub(super) fn cassette(rt: &impl Print, deck: Deck, room: u8, time: u64) -> Deck {
    event(rt, deck, room, |out| deck.cassette(time, out))
}
