// The status bytes, from the lowest bit up.
ghost use Rattle.std.specs.Prelude.{◌≡◌};
ghost use Rattle.settings.specs.Status.{still, status0, status1, status2, status3};

use super::{Mode, Settings};

impl Settings {
    fn is_still(self) -> bool
        ensures { result ≡ still self }
    {
        matches!(self.mode, Mode::Shuttle | Mode::Jog | Mode::Variable) && self.speed == 0
    }

    pub(super) fn status0(self) -> u8
        ensures { result ≡ status0 self }
    {
        u8::from(self.local) | u8::from(!self.cassette) << 5
    }

    pub(super) fn status1(self) -> u8
        ensures { result ≡ status1 self }
    {
        u8::from(self.mode == Mode::Play)
            | u8::from(self.mode == Mode::Record) << 1
            | u8::from(self.mode == Mode::FastForward) << 2
            | u8::from(self.mode == Mode::Rewind) << 3
            | u8::from(!self.cassette) << 4
            | u8::from(self.mode == Mode::Stop) << 5
            | u8::from(self.standby) << 7
    }

    pub(super) fn status2(self) -> u8
        ensures { result ≡ status2 self }
    {
        u8::from(self.cued)
            | u8::from(self.is_still()) << 1
            | u8::from(self.speed < 0) << 2
            | u8::from(self.mode == Mode::Variable) << 3
            | u8::from(self.mode == Mode::Jog) << 4
            | u8::from(self.mode == Mode::Shuttle) << 5
    }

    pub(super) fn status3(self) -> u8
        ensures { result ≡ status3 self }
    {
        u8::from(self.inon) | u8::from(self.outon) << 1
    }
}
