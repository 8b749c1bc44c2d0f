// Printing on standard output. What may not change: each part is a write of its own, and where one fails the next is tried all the same;
// so there is no format for a line.
use cases::BLANK;
use refusal::Refusal;

fn letters(rt: &impl Print, list: &[u8]) {
    let _ = rt.write_all(list);
}

fn number(rt: &impl Print, n: u64) {
    let _ = rt.print(n);
}

// A line for each record, what is handed back: a number, 0 where nothing is refused, and a length. Then the bytes that were written,
// and whether something behind them is not as it was lent.
pub(super) fn written(rt: &impl Print, written: Result<usize, Refusal>, out: &[u8]) {
    // A length beside the output, as `complete` hands it back: what is behind it is looked at too.
    let (no, len) = cases::numbered(written, 0);
    number(rt, u64::from(no));
    letters(rt, b" ");
    number(rt, len as u64);
    letters(rt, b"\n");
    let (record, behind) = out.split_at(len.min(out.len()));
    letters(rt, record);
    if !cases::untouched(behind, BLANK) {
        letters(rt, b"touched\n");
    }
}
