// The lines of the program `mark`.
ghost use Rattle.report.specs.Verdict.{turn_lines, verdict_line, text_of};
ghost use Rattle.text.specs.Puts.{Adds};

use marker::Marked;
use refusal::Refusal;
use text::Page;

fn put_turns(page: &mut Page<'_>, starts: &[u32]) -> Result<(), Refusal>
    ensures { Adds page.old (turn_lines starts.now) page.new result }
{
    for start in starts {
        page.line(b"turn ", u64::from(*start))?;
    }
    Ok(())
}

// Numbers in place of an enum, and so in `put_text`. What may not change: `report::text` takes any of them, also those of no verdict.
fn put_verdict(page: &mut Page<'_>, marked: Marked) -> Result<(), Refusal>
    ensures { Adds page.old (verdict_line marked) page.new result }
{
    if marked.fault == 0 {
        page.line(b"sound ", marked.count as u64)
    } else {
        page.at_line(b"fault ", u64::from(marked.fault), marked.place as u64)
    }
}

pub(super) fn put_text(page: &mut Page<'_>, marked: Marked, starts: &[u32]) -> Result<(), Refusal>
    ensures { Adds page.old (text_of marked starts.now) page.new result }
{
    if marked.no != 0 {
        return page.line(b"refused ", u64::from(marked.no));
    }
    put_verdict(page, marked)?;
    put_turns(page, starts)
}
