// Why a call is refused.
#![tactic(auto)]

ghost use Rattle.std.specs.Prelude.{◌≡◌};
ghost use Rattle.refusal.specs.Numbers.{number_of};

// In the order of their numbers, which `number` tells. Each enum with numbers has such a method: Rattle derives none, and a `From` for `u8`
// would be no plainer, and would not say what the byte is.
#[derive(Clone, Copy, Debug, PartialEq, Eq)]
pub enum Refusal {
    Room = 1,
    Late,
    Back,
    Flags,
    Place,
    Word,
    Length,
    Sum,
    Field,
    Record,
}

impl Refusal {
    pub fn number(self) -> u8
        ensures { result ≡ number_of self }
    {
        self as u8
    }
}
