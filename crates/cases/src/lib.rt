// What the test programs share: how they read their cases, and how they tell what a call did.
#![tactic(auto)]

ghost use Rattle.std.specs.Prelude.{◌≡◌, ◌<◌, ℕ, List, IfSome, IfNone, length, slice_index, take};
ghost use Rattle.std.specs.List.{list_all};
ghost use Rattle.std.specs.Result.{result_unwrap_or};
ghost use Rattle.std.specs.Io.KnownBytes.{Consumes};
ghost use Rattle.refusal.specs.Numbers.{no_of};
ghost use Rattle.cases.specs.First.{first_four};

use refusal::Refusal;
use std::array;
use std::io::Read;

// No input has so many cases: the bound is there for the loop to end.
pub const MOST: u32 = 1000000;

// What a lent output holds before a call.
pub const BLANK: u8 = 0xAA;

// The next four bytes of the input as a size, lowest byte first, or none where it has too few or a read fails.
pub fn next_size<R: Read>(input: &mut R) -> Option<usize>
    ensures known { IfSome result (λ size. (bytes : List ℕ) × (length bytes ≡ 4) × (size ≡ first_four bytes)
        × Consumes (R.remaining input.old) (R.remaining input.new) bytes) }
    ensures short { IfNone result ((bytes : List ℕ) × (length bytes < 4)
        × Consumes (R.remaining input.old) (R.remaining input.new) bytes) }
{
    let bytes = streams::read_array::<_, 4>(input)?;
    Some(first_number(&bytes) as usize)
}

// The first `size` elements, or all of them where there are fewer. No clause says what the space holds afterwards: an `ensures*` of a part
// of a slice would have to be proved by hand.
pub fn leading<T>(space: &mut [T], size: usize) -> &mut [T]
    ensures { result.now ≡ take size space.old }
{
    let size = size.min(space.len());
    &mut space[..size]
}

// The byte at `at`, and 0 past the end.
pub fn byte_or_zero(args: &[u8], at: usize) -> u8
    ensures { result ≡ slice_index args.now at }
{
    args.get(at).copied().unwrap_or(0)
}

// The number that the first four bytes hold, lowest byte first, with 0 for a byte that is missing.
pub fn first_number(args: &[u8]) -> u32
    ensures { result ≡ first_four args.now }
{
    u32::from_le_bytes(array::from_fn(|at| byte_or_zero(args, at)))
}

// An answer as document 01 has it: a number, 0 where nothing is refused, and a value, here `none` where something is. A pair, since the
// lines that are expected print both, refused or not.
pub fn numbered<T: Drop>(answer: Result<T, Refusal>, none: T) -> (u8, T)
    ensures number { result.0 ≡ no_of answer }
    ensures value { result.1 ≡ result_unwrap_or answer none }
{
    match answer {
        Ok(value) => (0, value),
        Err(refusal) => (refusal.number(), none),
    }
}

// Whether what is left of a lent buffer is as it was lent: each element is `fill`. Where it is not, each program prints `touched` itself.
// A project rule: a public function's contract says all that it does, and none can say what is printed.
// A speed bar: over all of the rest, since a loop that stops at the first that is not takes up to four times as long.
pub fn untouched<T: Copy + PartialEq>(rest: &[T], fill: T) -> bool
    ensures { result ≡ list_all (λ x. T.eq x fill) rest.now }
{
    let mut all = true;
    for x in rest {
        all &= *x == fill;
    }
    all
}
