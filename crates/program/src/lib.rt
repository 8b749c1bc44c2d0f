// What the programs share: each takes all of standard input and no argument, and tells on standard error what kept it from its work.
#![tactic(auto)]

ghost use Rattle.std.specs.Prelude.{◌≡◌, ◌≢◌, ℕ, ◌<◌, ◌≤◌, List, IfOk, IfErr, length, take};
ghost use Rattle.std.specs.Io.KnownBytes.{Consumes, IsAtEnd};

use std::env::FillError;
use std::fmt;
use std::io::Read;
use std::rt::Env;

// What kept a program from its work: an argument, and how the program is to be used, or a read or write that failed.
#[derive(Clone, Copy, PartialEq, Eq, Debug)]
pub enum Failure {
    Argument(&'static str),
    Read,
    Write,
}

// Reads all of the input, or as much of it as there is space for, and hands back the count and not that part, since `argument` speaks of
// all of the space. A name given as an argument would be passed over, and an empty standard input taken in its place. A read at the end is
// tried once more: a terminal can go on behind one.
pub fn read<R: Read>(
    rt: &impl Env,
    input: &mut R,
    space: &mut [u8],
    usage: &'static str,
) -> Result<usize, Failure>
    ensures in_bounds { IfOk result (λ count. count ≤ length space.new) }
    ensures bytes { IfOk result (λ count. Consumes (R.remaining input.old) (R.remaining input.new) (take count space.new)) }
    ensures all { IfOk result (λ count. count < length space.new → IsAtEnd (R.remaining input.new)) }
    ensures argument { IfErr result (λ failure. failure ≢ Failure.Read
        → (failure ≡ Failure.Argument usage.entry) × (space.new ≡ space.old) × (input.new ≡ input.old)) }
    ensures lost { IfErr result (λ _. (bytes : List ℕ) × Consumes (R.remaining input.old) (R.remaining input.new) bytes) }
{
    if !matches!(rt.arg(1, &mut [0]), Err(FillError::NotPresent)) {
        return Err(Failure::Argument(usage));
    }
    let count = streams::read_full(input, space).map_err(|_| Failure::Read)?;
    if count < space.len() && !matches!(input.read(&mut [0]), Ok(0)) {
        return Err(Failure::Read);
    }
    Ok(count)
}

impl fmt::Display for Failure {
    ghost use Rattle.std.specs.Prelude.{Some};
    ghost use Rattle.program.specs.Messages.{failure_text};

    ghost output = { λ failure. Some (failure_text failure) };

    fn fmt<W: fmt::Write>(&self, f: &mut fmt::Formatter<W>) -> fmt::Result {
        match self {
            Failure::Argument(usage) => write!(f, "takes no argument, use: {usage}"),
            Failure::Read => f.write_str("not all could be read"),
            Failure::Write => f.write_str("not all could be written"),
        }
    }
}
