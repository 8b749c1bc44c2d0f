// What an entry is.
ghost use Rattle.std.specs.Prelude.{◌≡◌};
ghost use Rattle.record.specs.Entries.{kind_of, kind_or_field};

use super::Entry;
use refusal::Refusal;

// In the order of their numbers, which a cast tells: a `From` for `u8` would be no plainer.
#[derive(Clone, Copy, Debug, PartialEq, Eq)]
pub enum Kind {
    Controller,
    Deck,
    Position,
    Cassette,
}

impl TryFrom<u8> for Kind {
    type Error = Refusal;

    ghost try_from_gives = { λ byte r. r ≡ kind_or_field byte };

    fn try_from(byte: u8) -> Result<Kind, Refusal> {
        match byte {
            0 => Ok(Kind::Controller),
            1 => Ok(Kind::Deck),
            2 => Ok(Kind::Position),
            3 => Ok(Kind::Cassette),
            _ => Err(Refusal::Field),
        }
    }
}

impl Entry {
    // None where its byte is no kind.
    pub fn kind(self) -> Option<Kind>
        ensures { result ≡ kind_of self.kind }
    {
        Kind::try_from(self.kind).ok()
    }
}
