// Calls of the crate `speed`.
use crate::show;

// Arguments: the speed byte, and 1 for reverse.
pub(super) fn speed(rt: &impl Print, args: &[u8]) {
    let n = cases::byte_or_zero(args, 0);
    let reverse = cases::byte_or_zero(args, 1);
    let v = speed::speed(n, reverse == 1);
    show::text(rt, b"speed");
    show::small(rt, n);
    show::small(rt, reverse);
    show::gives(rt);
    show::text(rt, if v < 0 { b" -" } else { b" " });
    show::digits(rt, speed::size(v));
}
