// Bytes in hexadecimal.
ghost use Rattle.std.specs.Prelude.{◌≡◌, ◌<◌};
ghost use Rattle.text.specs.Text.{hex_digit, hexes, hex_line};
ghost use Rattle.text.specs.Writes.{Writes};

use super::Page;
use refusal::Refusal;

// By hand: for `{:02X}` a page would have to be a `fmt::Write`, which is more than this line and no plainer.
fn hex_digit(n: u8) -> u8
    requires { n < 16 }
    ensures { result ≡ hex_digit n }
{
    if n < 10 { b'0' + n } else { b'A' + n - 10 }
}

impl Page<'_> {
    // Bytes in two upper-case digits, each behind a space.
    pub fn hexes(&mut self, bytes: &[u8]) -> Result<(), Refusal>
        ensures { Writes self.old (hexes bytes.now) self.new result }
    {
        self.check_parts(0, 3, bytes.len())?;
        for byte in bytes {
            self.words(&[b' ', hex_digit(byte >> 4), hex_digit(byte & 15)])?;
        }
        Ok(())
    }

    // Some words, bytes and the line's end.
    pub fn hex_line(&mut self, words: &[u8], bytes: &[u8]) -> Result<(), Refusal>
        ensures { Writes self.old (hex_line words.now bytes.now) self.new result }
    {
        self.check_parts(words.len() + 1, 3, bytes.len())?;
        self.words(words)?;
        self.hexes(bytes)?;
        self.words(b"\n")
    }
}
