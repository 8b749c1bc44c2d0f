// Reads an exercise, controller, tape and cassette entries, from standard input and writes it with the deck's replies put in.
#![tactic(auto)]

ghost use Rattle.std.specs.Prelude.{◌+◌, ◌≤◌, ◌≡◌, length, take};
ghost use Rattle.io.specs.Counts.{IsPrefixLen};
ghost use Rattle.completion.specs.Calls.{room_for};
ghost use Rattle.complete.specs.Printed.{printed};

use program::Failure;
use text::Page;

// What is written for these bytes, at the front of the output; returns its length. No heap: the text lies in a lent buffer, and its
// length is what is printed of it. A refusal has at most 29 bytes, on a page that is made here: `report` says why.
fn answer(bytes: &[u8], out: &mut [u8]) -> usize
    requires { room_for bytes.now + 29 ≤ length out.old }
    ensures prefix_len { IsPrefixLen result out.new }
    ensures out_after { take result out.new ≡ printed bytes.now }
{
    match completion::complete(bytes, out) {
        Ok(len) => len,
        Err(refusal) => {
            let mut page = Page { out, end: 0 };
            page.line(b"refused ", u64::from(refusal.number())).unwrap();
            page.end
        }
    }
}

// A speed bar: in `run` the output would be blanked twice, at its entry too.
fn print(rt: &HostRuntime, bytes: &[u8]) -> Result<(), Failure>
    requires { length bytes.now ≤ 65536 }
{
    let mut out = [0; 458781];
    let len = answer(bytes, &mut out);
    rt.write_all(&out[..len]).map_err(|_| Failure::Write)
}

// Of more than the buffer holds 65,536 bytes are read: too many, so they are refused all the same. The output has room for the
// longest completed record, 7 times as many, or a refusal.
// This and `main` stay in each of three programs: room, what fills it, the usage line and the name are nearly all there is, so that one for
// all is no plainer.
fn run(rt: &HostRuntime) -> Result<(), Failure> {
    let mut buf = [0; 65536];
    let count = program::read(rt, &mut rt.stdin(), &mut buf, "complete < EXERCISE")?;
    print(rt, &buf[..count])
}

fn main(rt: HostRuntime) {
    if let Err(failure) = run(&rt) {
        let _ = eprintln!(rt; "complete: {failure}");
    }
}
