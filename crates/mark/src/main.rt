// Reads a line record from standard input and prints its verdict and its turns.
#![tactic(auto)]

ghost use Rattle.std.specs.Prelude.{◌≤◌, length, take};
ghost use Rattle.io.specs.Counts.{IsPrefixLen};
ghost use Rattle.mark.specs.Answers.{Answers};

use marker::Marked;
use program::Failure;

// What is printed for these bytes, at the front of the output; returns its length. No heap: the text lies in a lent buffer, and its
// length is what is printed of it. The table has a place for every entry.
fn answer(bytes: &[u8], out: &mut [u8]) -> usize
    requires { 87440 ≤ length out.old }
    ensures prefix_len { IsPrefixLen result out.new }
    ensures answers { Answers bytes.now (take result out.new) }
{
    let mut table = [0; 5461];
    let marked = Marked::from(marker::mark(bytes, &mut table));
    report::text(marked, &table[..marked.count], out).unwrap()
}

// A speed bar: in `run` the output would be blanked twice, at its entry too.
fn print(rt: &HostRuntime, bytes: &[u8]) -> Result<(), Failure> {
    let mut out = [0; 87440];
    let len = answer(bytes, &mut out);
    rt.write_all(&out[..len]).map_err(|_| Failure::Write)
}

// Of a record that is longer than the buffer 65,536 bytes are read: too many, so it is refused all the same.
// This and `main` stay in each of three programs: room, what fills it, the usage line and the name are nearly all there is, so that one for
// all is no plainer.
fn run(rt: &HostRuntime) -> Result<(), Failure> {
    let mut buf = [0; 65536];
    let count = program::read(rt, &mut rt.stdin(), &mut buf, "mark < RECORD")?;
    print(rt, &buf[..count])
}

fn main(rt: HostRuntime) {
    if let Err(failure) = run(&rt) {
        let _ = eprintln!(rt; "mark: {failure}");
    }
}
