// Printing on standard output. Each value stands behind a space, bytes in hexadecimal: the lines expected of leaf_cases have brackets and
// small letters. What may not change: each part is a write of its own, and where one fails the next is tried all the same; so there is no
// format for a line.
use cases::BLANK;
use deck::{Answer, Deck};
use refusal::Refusal;
use settings::{Point, Settings, Which};

fn text(rt: &impl Print, letters: &[u8]) {
    let _ = rt.write_all(letters);
}

fn digits(rt: &impl Print, n: u64) {
    let _ = rt.print(n);
}

fn number(rt: &impl Print, n: u64) {
    text(rt, b" ");
    digits(rt, n);
}

fn byte(rt: &impl Print, b: u8) {
    let _ = print!(rt; " {b:02X}");
}

fn bytes(rt: &impl Print, list: &[u8]) {
    for b in list {
        byte(rt, *b);
    }
}

// The replies that stand at the front of `out`, or by what number the call was refused, and whether the output behind them is not as it
// was lent. A `Sent` tells of a length, since reply bytes lie in the output. Split here as in `report`, which says why.
pub(super) fn answer(rt: &impl Print, answer: Result<Answer, Refusal>, out: &[u8]) {
    let mut behind = out;
    match answer {
        Err(refusal) => {
            text(rt, b"no");
            number(rt, u64::from(refusal.number()));
            text(rt, b"\n");
        }
        Ok(Answer { first, second, .. }) => {
            for sent in [first, second].into_iter().flatten() {
                let (reply, rest) = behind.split_at(sent.len.min(behind.len()));
                text(rt, b"reply");
                number(rt, sent.due);
                bytes(rt, reply);
                text(rt, b"\n");
                behind = rest;
            }
        }
    }
    if !cases::untouched(behind, BLANK) {
        text(rt, b"touched\n");
    }
}

fn point(rt: &impl Print, settings: Settings, which: Which) {
    let Point { at, on } = settings.point(which);
    number(rt, u64::from(at));
    text(rt, if on { b" on" } else { b" off" });
}

// The open block: its first byte, and those behind it in the order in which they came.
fn open_block(rt: &impl Print, deck: Deck) {
    let Deck {
        held,
        first,
        tail,
        ..
    } = deck;
    if held != 0 {
        byte(rt, (first % 256) as u8);
        // A `Tail` is two numbers and no slice: there is nothing to iterate over but places.
        for back in (0..held - 1).rev() {
            byte(rt, tail.at(back));
        }
    }
}

// What the rules settle of a deck: clock, open block, status bytes, position, In, Out, speed.
pub(super) fn state(rt: &impl Print, deck: Deck) {
    let settings = deck.settings;
    text(rt, b"deck");
    number(rt, deck.clock);
    text(rt, b" [");
    open_block(rt, deck);
    text(rt, b" ]");
    bytes(rt, &settings.status());
    text(rt, b" at");
    number(rt, u64::from(settings.position));
    text(rt, b" in");
    point(rt, settings, Which::In);
    text(rt, b" out");
    point(rt, settings, Which::Out);
    text(rt, b" speed");
    text(rt, if settings.speed < 0 { b" -" } else { b" " });
    digits(rt, u64::from(settings.speed.unsigned_abs()));
    text(rt, b"\n");
}
