// Reading into a buffer that is lent.
#![tactic(auto)]

ghost use Rattle.std.specs.Prelude.{◌≡◌, ℕ, ◌<◌, ◌≤◌, List, IfOk, IfErr, IfSome, IfNone, length, take};
ghost use Rattle.std.specs.Io.KnownBytes.{Consumes, IsAtEnd};
ghost use Rattle.streams.specs.Came.{came};

use std::io::Read;

// A read failed, behind this many bytes.
#[derive(Clone, Copy, PartialEq, Eq, Debug)]
pub struct Cut {
    pub count: usize,
}

// Reads until the buffer is full, the input ends or a read fails, a read that a signal interrupts too. What came stands at the front.
pub fn read_full<R: Read>(input: &mut R, space: &mut [u8]) -> Result<usize, Cut>
    ensures in_bounds { came result ≤ length space.new }
    ensures bytes { Consumes (R.remaining input.old) (R.remaining input.new) (take (came result) space.new) }
    ensures all { IfOk result (λ count. count < length space.new → IsAtEnd (R.remaining input.new)) }
    ensures failed { IfErr result (λ cut. cut.count < length space.new) }
{
    let mut count = 0;
    // A `for` is no plainer: a read brings any number of bytes.
    while count < space.len() {
        match input.read(&mut space[count..]) {
            Ok(0) => break,
            Ok(more) => count += more,
            Err(_) => return Err(Cut { count }),
        }
    }
    Ok(count)
}

// The bytes that came before the buffer was full, the input ended or a read failed. Where it is not full, which of the two it was is not
// told, so no clause says that the input is at its end.
pub fn read_front<'a, R: Read>(input: &mut R, space: &'a mut [u8]) -> &'a [u8]
    ensures in_bounds { length result.now ≤ length space.old }
    ensures bytes { Consumes (R.remaining input.old) (R.remaining input.new) result.now }
{
    let count = read_full(input, space).unwrap_or_else(|cut| cut.count);
    &space[..count]
}

// An array of the next bytes, or none where the input has too few or a read fails: then fewer bytes came than the array has. Since any
// read may fail, no clause says when there is an array: one that is never read and never handed out would meet the contract too.
pub fn read_array<R: Read, const N: usize>(input: &mut R) -> Option<[u8; N]>
    ensures whole { IfSome result (λ bytes. Consumes (R.remaining input.old) (R.remaining input.new) bytes) }
    ensures short { IfNone result ((bytes : List ℕ) × (length bytes < N) × Consumes (R.remaining input.old) (R.remaining input.new) bytes) }
{
    let mut bytes = [0; N];
    (read_full(input, &mut bytes) == Ok(N)).then_some(bytes)
}
