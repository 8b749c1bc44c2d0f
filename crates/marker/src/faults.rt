// Why a record is not sound.
ghost use Rattle.std.specs.Prelude.{◌≡◌};
ghost use Rattle.marker.specs.Faults.{fault_number};

// In the order of their numbers, which `number` tells: by a cast, as in `Refusal::number`.
#[derive(Clone, Copy, Debug, PartialEq, Eq)]
pub enum Fault {
    Malformed = 20,
    Falls,
    Unawaited,
    Differs,
    Overdue,
    Interrupts,
    Stops,
}

impl Fault {
    pub fn number(self) -> u8
        ensures { result ≡ fault_number self }
    {
        self as u8
    }
}
