// Calls of the crate `line`.
use crate::show;
use line::Received;

pub(super) fn receive(rt: &impl Print, args: &[u8]) {
    let word = cases::first_number(args);
    let (no, Received { byte, flags }) = cases::numbered(
        line::receive(word),
        Received { byte: 0, flags: 0 },
    );
    show::text(rt, b"receive");
    show::word(rt, word);
    show::gives(rt);
    show::small(rt, no);
    show::byte(rt, byte);
    show::byte(rt, flags);
}
