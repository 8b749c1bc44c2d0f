// The last five lines of the program `answer`: how the deck stands.
ghost use Rattle.report.specs.Transcript.{speed_line, time_line, settings_lines};
ghost use Rattle.text.specs.Puts.{Adds};

use refusal::Refusal;
use settings::Settings;
use text::Page;

// The sign is one of the words: no other line's number has one, and a signed `line` would serve this one alone, no plainer.
fn put_speed(page: &mut Page<'_>, v: i32) -> Result<(), Refusal>
    ensures { Adds page.old (speed_line v) page.new result }
{
    page.line(if v < 0 { b"speed -" } else { b"speed " }, speed::size(v))
}

// A position that is none has the time zero.
fn put_time(page: &mut Page<'_>, words: &[u8], position: u32) -> Result<(), Refusal>
    ensures { Adds page.old (time_line words.now position) page.new result }
{
    page.hex_line(words, &timecode::time(position).unwrap_or([0; 4]))
}

pub(super) fn put_settings(page: &mut Page<'_>, settings: Settings) -> Result<(), Refusal>
    ensures { Adds page.old (settings_lines settings) page.new result }
{
    page.hex_line(b"status", &settings.status())?;
    put_time(page, b"time", settings.position)?;
    put_time(page, b"in", settings.inat)?;
    put_time(page, b"out", settings.outat)?;
    put_speed(page, settings.speed)
}
