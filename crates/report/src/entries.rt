// The lines of the program `answer`: what the deck says to a record's entries.
ghost use Rattle.std.specs.Prelude.{◌+◌, ◌≤◌, ◌≡◌, length};
ghost use Rattle.deck.specs.Calls.{len_of, new_deck};
ghost use Rattle.record.specs.Bytes.{entries_of};
ghost use Rattle.report.specs.Transcript.{entry_lines, stands, transcript_from, transcript};
ghost use Rattle.report.specs.Answered.{standing, sent_line, sent_lines};
ghost use Rattle.text.specs.Puts.{Adds};

use super::standing;
use cursor::Cursor;
use deck::{Answer, Deck, Sent};
use record::Entry;
use refusal::Refusal;
use text::Page;

// A reply, if there is one, that stands at the front of these bytes. That they are enough is a clause, here and in `put_answer`, and the
// split stands here, in `completion` and in deck_cases: a type of a reply with its bytes would be made by that split and used once in each,
// and be no plainer.
fn put_sent(page: &mut Page<'_>, sent: Option<Sent>, bytes: &[u8]) -> Result<(), Refusal>
    requires { len_of sent ≤ length bytes.now }
    ensures { Adds page.old (sent_line sent bytes.now) page.new result }
{
    let Some(Sent { len, due }) = sent else {
        return Ok(());
    };
    page.words(b"reply ")?;
    page.decimal(due)?;
    page.hex_line(b"", &bytes[..len])
}

// The replies, which stand at the front of these bytes, one behind the other.
fn put_answer(page: &mut Page<'_>, answer: Answer, bytes: &[u8]) -> Result<(), Refusal>
    requires { len_of answer.first + len_of answer.second ≤ length bytes.now }
    ensures { Adds page.old (sent_lines answer.first answer.second bytes.now) page.new result }
{
    put_sent(page, answer.first, bytes)?;
    let len = answer.first.map_or(0, |sent| sent.len);
    put_sent(page, answer.second, &bytes[len..])
}

// The entry with number k, which the deck is handed if it is meant for it.
fn put_entry(page: &mut Page<'_>, deck: &mut Deck, k: usize, e: Entry) -> Result<(), Refusal>
    ensures lines { Adds page.old (entry_lines k (standing deck.old) e) page.new result }
    ensures after { standing deck.new ≡ stands (standing deck.old) e }
{
    if !record::meant(e) {
        return page.line(b"malformed at ", k as u64);
    }
    let mut bytes = [0; 18];
    match record::hand(*deck, e, &mut bytes) {
        Ok(answer) => {
            *deck = answer.deck;
            put_answer(page, answer, &bytes)
        }
        Err(why) => page.at_line(b"refused ", u64::from(why.number()), k as u64),
    }
}

// Every entry, handed to a deck at power-on, and how it stands after them.
fn put_record(page: &mut Page<'_>, bytes: &[u8]) -> Result<(), Refusal>
    ensures { Adds page.old (transcript_from 0 (standing new_deck) (entries_of bytes.now)) page.new result }
{
    let mut deck = Deck::power_on();
    for (k, e) in Cursor::at(bytes, 0).enumerate() {
        put_entry(page, &mut deck, k, e)?;
    }
    standing::put_settings(page, deck.settings)
}

pub(super) fn put_transcript(page: &mut Page<'_>, bytes: &[u8]) -> Result<(), Refusal>
    ensures { Adds page.old (transcript bytes.now) page.new result }
{
    if !record::is_record(bytes.len()) {
        return page.line(b"refused ", u64::from(Refusal::Record.number()));
    }
    put_record(page, bytes)
}
