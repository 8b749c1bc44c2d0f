// Calls of the crate `block`.
use crate::show;
use block::Header;
use cases::numbered;

pub(super) fn sum(rt: &impl Print, args: &[u8]) {
    show::text(rt, b"sum");
    show::bytes(rt, args);
    show::gives(rt);
    show::byte(rt, block::sum(args));
}

// Both functions of the reader.
pub(super) fn read(rt: &impl Print, args: &[u8]) {
    let none = Header {
        group: 0,
        command: 0,
        count: 0,
    };
    let (no, header) = numbered(block::fields(args), none);
    show::text(rt, b"read");
    show::bytes(rt, args);
    show::gives(rt);
    show::small(rt, no);
    show::small(rt, header.group);
    show::byte(rt, header.command);
    show::small(rt, header.count);
    show::bytes(rt, block::data(args));
}

// Arguments: group, command, room, data. Prints all of the output, so that what is untouched is seen too.
pub(super) fn write(rt: &impl Print, args: &[u8]) {
    let group = cases::byte_or_zero(args, 0);
    let command = cases::byte_or_zero(args, 1);
    let room = cases::byte_or_zero(args, 2);
    let data = args.get(3..).unwrap_or(&[]);
    let mut space = [cases::BLANK; 255];
    let out = &mut space[..usize::from(room)];
    // A length beside the output, as `write` hands it back: what is behind it is printed too.
    let (no, len) = numbered(block::write(group, command, data, out), 0);
    show::text(rt, b"write");
    show::small(rt, group);
    show::byte(rt, command);
    show::bytes(rt, data);
    show::small(rt, room);
    show::gives(rt);
    show::small(rt, no);
    show::number(rt, len as u64);
    show::bytes(rt, out);
}
