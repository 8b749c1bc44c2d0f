// Calls of the crate `timecode`.
use crate::show;
use cases::numbered;
use refusal::Refusal;

pub(super) fn position(rt: &impl Print, args: &[u8]) {
    let (no, place) = numbered(timecode::position(args), 0);
    show::text(rt, b"position");
    show::bytes(rt, args);
    show::gives(rt);
    show::small(rt, no);
    show::number(rt, u64::from(place));
}

pub(super) fn time(rt: &impl Print, args: &[u8]) {
    let place = cases::first_number(args);
    let (no, time) = numbered(timecode::time(place), [0; 4]);
    show::text(rt, b"time");
    show::number(rt, u64::from(place));
    show::gives(rt);
    show::small(rt, no);
    show::bytes(rt, &time);
}

// The frame after a place, or the one before: `to` makes the call, and `name` says which it is.
pub(super) fn frame<F: FnOnce(u32) -> Result<u32, Refusal>>(
    rt: &impl Print,
    name: &[u8],
    args: &[u8],
    to: F,
)
    requires { F.IsAlwaysCallable to }
{
    let place = cases::first_number(args);
    let (no, there) = numbered(to(place), 0);
    show::text(rt, name);
    show::number(rt, u64::from(place));
    show::gives(rt);
    show::small(rt, no);
    show::number(rt, u64::from(there));
}
