// Printing on standard output. What may not change: each part is a write of its own, and where one fails the next is tried all the same;
// so there is no format for a line.
use cases::BLANK;
use marker::Marked;

// What the lent table holds before a call.
pub const FILL: u32 = 0xFFFFFFFF;

fn letters(rt: &impl Print, list: &[u8]) {
    let _ = rt.write_all(list);
}

fn number(rt: &impl Print, n: u64) {
    let _ = rt.print(n);
}

fn next_number(rt: &impl Print, n: u64) {
    letters(rt, b" ");
    number(rt, n);
}

// The number, the fault, the place and the count, whatever they are.
fn fields(rt: &impl Print, marked: Marked) {
    number(rt, u64::from(marked.no));
    next_number(rt, u64::from(marked.fault));
    next_number(rt, marked.place as u64);
    next_number(rt, marked.count as u64);
    letters(rt, b"\n");
}

// A line for each record, what is handed back; then its text, which has the turn starts, in an output of just the size it asks for; and a
// line where something behind the text or the turns is not as it was lent.
pub(super) fn marked(rt: &impl Print, marked: Marked, table: &[u32]) {
    fields(rt, marked);
    let (starts, unused) = table.split_at(marked.count.min(table.len()));
    let mut space = [BLANK; 96064];
    let out = &mut space[..64 + 16 * starts.len().min(6000)];
    // A length beside the output, as `report::text` hands it back: what is behind it is looked at too.
    let len = report::text(marked, starts, out).unwrap_or(0);
    let (text, behind) = out.split_at(len.min(out.len()));
    letters(rt, text);
    if !cases::untouched(behind, BLANK) {
        letters(rt, b"touched\n");
    }
    if !cases::untouched(unused, FILL) {
        letters(rt, b"touched\n");
    }
}
