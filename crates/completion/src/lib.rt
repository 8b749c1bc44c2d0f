// A record with the deck's replies put in: what the deck itself would have made of the entries of an exercise.
#![tactic(auto)]

ghost use Rattle.std.specs.Prelude.{◌≡◌};
ghost use Rattle.refusal.specs.Numbers.{no_of};
ghost use Rattle.refusal.specs.Written.{written_by};
ghost use Rattle.record.specs.Bytes.{entries_of};
ghost use Rattle.completion.specs.Calls.{follows, all_follow, refusal, written, written_out};

use cursor::Cursor;
use record::{Entry, Kind};
use refusal::Refusal;
use text::Page;

mod put;

// Whether an exercise may have this entry after one at this time.
#[tactic(auto, using(record::proofs::KindTests::is_deck_by), unfolding(crate::specs::Calls::follows))]
fn follows(time: u64, e: Entry) -> bool
    ensures { result ≡ follows time e }
{
    e.kind() != Some(Kind::Deck) && time <= e.time && record::formed(e)
}

// Whether each entry may come after the one before it.
#[tactic(auto, using(cursor::proofs::Places::comes, cursor::proofs::Places::ends), unfolding(crate::specs::Calls::all_follow))]
fn all_follow(bytes: &[u8]) -> bool
    ensures { result ≡ all_follow 0 (entries_of bytes.now) }
{
    let mut time = 0;
    for e in Cursor::at(bytes, 0) {
        if !follows(time, e) {
            return false;
        }
        time = e.time;
    }
    true
}

// Whether the call is refused.
#[tactic(auto, unfolding(crate::specs::Calls::refusal, crate::specs::Calls::is_exercise))]
fn refusal(bytes: &[u8], room: usize) -> Result<(), Refusal>
    ensures { no_of result ≡ refusal bytes.now room }
{
    if !record::is_record(bytes.len()) || !all_follow(bytes) {
        return Err(Refusal::Record);
    }
    if room < 7 * bytes.len() {
        return Err(Refusal::Room);
    }
    Ok(())
}

// The record with the deck's replies put in, at the front of the output. The page is made and its end handed back here:
// `report` says why.
pub fn complete(bytes: &[u8], out: &mut [u8]) -> Result<usize, Refusal>
    ensures answer { written_by result ≡ written bytes.now out.old }
    ensures output { out.new ≡ written_out bytes.now out.old }
{
    refusal(bytes, out.len())?;
    let mut page = Page { out, end: 0 };
    put::put_record(&mut page, bytes)?;
    Ok(page.end)
}
