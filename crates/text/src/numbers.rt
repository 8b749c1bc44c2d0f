// Numbers in decimal, and lines with numbers.
ghost use Rattle.std.specs.Prelude.{◌≡◌, ◌≤◌, length};
ghost use Rattle.text.specs.Text.{decimal, line, at_line};
ghost use Rattle.text.specs.Writes.{Writes};

use super::Page;
use itoa::Buffer;
use refusal::Refusal;

fn digit_count(n: u64) -> usize
    ensures count { result ≡ length (decimal n) }
    ensures few { result ≤ 20 }
{
    Buffer::new().format(n).len()
}

impl Page<'_> {
    // A number, with no zeros in front.
    pub fn decimal(&mut self, n: u64) -> Result<(), Refusal>
        ensures { Writes self.old (decimal n) self.new result }
    {
        self.words(Buffer::new().format(n).as_bytes())
    }

    // Some words, a number and the line's end.
    pub fn line(&mut self, words: &[u8], n: u64) -> Result<(), Refusal>
        ensures { Writes self.old (line words.now n) self.new result }
    {
        self.check_room(words.len() + digit_count(n) + 1)?;
        self.words(words)?;
        self.decimal(n)?;
        self.words(b"\n")
    }

    // A line with a number, and the place where it was found.
    pub fn at_line(&mut self, words: &[u8], n: u64, place: u64) -> Result<(), Refusal>
        ensures { Writes self.old (at_line words.now n place) self.new result }
    {
        self.check_room(words.len() + digit_count(n) + digit_count(place) + 5)?;
        self.words(words)?;
        self.decimal(n)?;
        self.line(b" at ", place)
    }
}
