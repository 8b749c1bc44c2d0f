// The completed record, put on a page entry by entry.
ghost use Rattle.std.specs.Prelude.{◌+◌, ◌≤◌, ◌≡◌, true, [], ◌∷◌, length, IfOk};
ghost use Rattle.deck.specs.Calls.{len_of, view};
ghost use Rattle.record.specs.Entries.{after_entry, says_to};
ghost use Rattle.record.specs.Bytes.{bytes_of, entries_of, record_of};
ghost use Rattle.text.specs.Puts.{Adds};
ghost use Rattle.completion.specs.Completed.{on_line, with_reply, with_replies, completed};
ghost use Rattle.completion.specs.Calls.{follows, all_follow, reply, with_answer};

use cursor::Cursor;
use deck::{Answer, Deck};
use record::{Entry, Kind};
use refusal::Refusal;
use text::Page;

fn put_entry(page: &mut Page<'_>, e: Entry) -> Result<(), Refusal>
    ensures { Adds page.old (bytes_of e) page.new result }
{
    page.words(&e.to_bytes())
}

fn put_reply(page: &mut Page<'_>, due: u64, bytes: &[u8]) -> Result<(), Refusal>
    ensures { Adds page.old (record_of (on_line (reply due bytes.now))) page.new result }
{
    for byte in bytes {
        let entry = Entry {
            kind: Kind::Deck as u8,
            flags: 0,
            content: u32::from(*byte),
            time: due,
        };
        put_entry(page, entry)?;
    }
    Ok(())
}

// An entry and a reply to it: behind it, unless the reply was due before.
fn put_both(page: &mut Page<'_>, e: Entry, due: u64, bytes: &[u8]) -> Result<(), Refusal>
    ensures { Adds page.old (record_of (with_reply (e ∷ []) (reply due bytes.now))) page.new result }
{
    if e.time <= due {
        put_entry(page, e)?;
        return put_reply(page, due, bytes);
    }
    put_reply(page, due, bytes)?;
    put_entry(page, e)
}

// An entry and the replies to it, whose bytes stand at the front of these, and are split here as in `report`, which says why. A speed bar:
// with a call of `put_both` in two places the page is kept in memory, and the record takes up to twice the time.
fn put_answer(page: &mut Page<'_>, e: Entry, answer: &Answer, bytes: &[u8]) -> Result<(), Refusal>
    requires { len_of answer.now.first + len_of answer.now.second ≤ length bytes.now }
    ensures { Adds page.old (record_of (with_answer e answer.now.first answer.now.second bytes.now)) page.new result }
{
    let Some(first) = answer.first else {
        return put_entry(page, e);
    };
    let (front, rest) = bytes.split_at(first.len);
    put_both(page, e, first.due, front)?;
    let Some(second) = answer.second else {
        return Ok(());
    };
    put_reply(page, second.due, &rest[..second.len])
}

// An entry and all that the deck says to it.
fn put_step(page: &mut Page<'_>, deck: Deck, e: Entry) -> Result<Deck, Refusal>
    requires { follows deck.clock e ≡ true }
    ensures puts { Adds page.old (record_of (with_replies (e ∷ []) (says_to (view deck) e))) page.new result }
    ensures deck { IfOk result (λ d. (view d ≡ after_entry (view deck) e) × (d.clock ≡ e.time)) }
{
    let mut bytes = [0; 18];
    let answer = record::hand(deck, e, &mut bytes)?;
    put_answer(page, e, &answer, &bytes)?;
    Ok(answer.deck)
}

// Every entry, handed to a deck at power-on.
pub(super) fn put_record(page: &mut Page<'_>, bytes: &[u8]) -> Result<(), Refusal>
    requires { all_follow 0 (entries_of bytes.now) ≡ true }
    ensures { Adds page.old (record_of (completed (entries_of bytes.now))) page.new result }
{
    let mut deck = Deck::power_on();
    for e in Cursor::at(bytes, 0) {
        deck = put_step(page, deck, e)?;
    }
    Ok(())
}
