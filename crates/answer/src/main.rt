// Reads a line record from standard input and prints what the deck says to its entries, and how it stands after them.
#![tactic(auto)]

ghost use Rattle.std.specs.Prelude.{◌≤◌, ◌≡◌, length, take};
ghost use Rattle.io.specs.Counts.{IsPrefixLen};
ghost use Rattle.report.specs.Transcript.{transcript, room_for};

use program::Failure;

const ROOM: usize = 589916;

// What is printed for these bytes, at the front of the output; returns its length. No heap: the text lies in a lent buffer, and its
// length is what is printed of it.
fn answer(bytes: &[u8], out: &mut [u8]) -> usize
    requires { room_for bytes.now ≤ length out.old }
    ensures prefix_len { IsPrefixLen result out.new }
    ensures out_after { take result out.new ≡ transcript bytes.now }
{
    report::transcript(bytes, out).unwrap()
}

// The output, with room for the longest transcript, that of 5,461 entries. In `run` itself the check unfolds so long an array, and
// runs out of stack.
fn blank() -> [u8; ROOM] {
    [0; ROOM]
}

// Of a record that is longer than the buffer 65,536 bytes are read: too many, so it is refused all the same.
// This and `main` stay in each of three programs: room, what fills it, the usage line and the name are nearly all there is, so that one for
// all is no plainer.
fn run(rt: &HostRuntime) -> Result<(), Failure> {
    let mut buf = [0; 65536];
    let count = program::read(rt, &mut rt.stdin(), &mut buf, "answer < RECORD")?;
    let mut out = blank();
    let len = answer(&buf[..count], &mut out);
    rt.write_all(&out[..len]).map_err(|_| Failure::Write)
}

fn main(rt: HostRuntime) {
    if let Err(failure) = run(&rt) {
        let _ = eprintln!(rt; "answer: {failure}");
    }
}
