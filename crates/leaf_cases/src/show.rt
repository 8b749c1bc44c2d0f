// Printing on standard output. Each value stands behind a space. What may not change: each part is a write of its own, and where one fails
// the next is tried all the same; so there is no format for a line.
pub(super) fn text(rt: &impl Print, letters: &[u8]) {
    let _ = rt.write_all(letters);
}

pub(super) fn digits(rt: &impl Print, n: u64) {
    let _ = rt.print(n);
}

pub(super) fn number(rt: &impl Print, n: u64) {
    text(rt, b" ");
    digits(rt, n);
}

// A byte in decimal.
pub(super) fn small(rt: &impl Print, b: u8) {
    number(rt, u64::from(b));
}

// A word in hexadecimal, in three digits or more.
pub(super) fn word(rt: &impl Print, n: u32) {
    let _ = print!(rt; " {n:03x}");
}

// A byte in hexadecimal.
pub(super) fn byte(rt: &impl Print, b: u8) {
    let _ = print!(rt; " {b:02x}");
}

// In brackets: the lines expected of deck_cases have none, and capitals.
pub(super) fn bytes(rt: &impl Print, list: &[u8]) {
    text(rt, b" [");
    for b in list {
        byte(rt, *b);
    }
    text(rt, b" ]");
}

// Stands between a call and what it returned.
pub(super) fn gives(rt: &impl Print) {
    text(rt, b" ->");
}
