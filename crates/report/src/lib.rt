// What the programs print, as bytes in a lent buffer.
#![tactic(auto)]

ghost use Rattle.std.specs.Prelude.{◌≡◌};
ghost use Rattle.refusal.specs.Written.{written_by};
ghost use Rattle.report.specs.Text.{written_in, written_out};
ghost use Rattle.report.specs.Verdict.{text_of, room_for};
ghost use Rattle.report.specs.Transcript.{transcript, room_for as room_for_bytes};

use marker::Marked;
use refusal::Refusal;
use text::Page;

mod entries;
mod standing;
mod verdict;

// The text of a verdict. A page is made, filled and its end handed back here, in `transcript`, in `completion` and in the program
// `complete`: one function for the four would take a closure that puts the text, and a contract over closures is no plainer.
pub fn text(marked: Marked, starts: &[u32], out: &mut [u8]) -> Result<usize, Refusal>
    ensures answer { written_by result ≡ written_in (room_for starts.now) (text_of marked starts.now) out.old }
    ensures output { out.new
        ≡ written_out (room_for starts.now) (text_of marked starts.now) out.old }
{
    let mut page = Page { out, end: 0 };
    page.check_parts(64, 16, starts.len())?;
    verdict::put_text(&mut page, marked, starts)?;
    Ok(page.end)
}

// What the deck says to a record's entries, and how it stands after them.
pub fn transcript(bytes: &[u8], out: &mut [u8]) -> Result<usize, Refusal>
    ensures answer { written_by result ≡ written_in (room_for_bytes bytes.now) (transcript bytes.now) out.old }
    ensures output { out.new
        ≡ written_out (room_for_bytes bytes.now) (transcript bytes.now) out.old }
{
    let mut page = Page { out, end: 0 };
    page.check_parts(128, 108, bytes.len() / 12)?;
    entries::put_transcript(&mut page, bytes)?;
    Ok(page.end)
}
