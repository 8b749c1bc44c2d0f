// The deck's settings.
#![tactic(auto)]

ghost use Rattle.std.specs.Prelude.{◌≡◌};
ghost use Rattle.settings.specs.Settings.{power_on, loaded, point_of, with_motion, with_point};
ghost use Rattle.settings.specs.Status.{status_bytes};

mod bits;

// `NoMode` is a mode of the papers, the one that eject leaves.
#[derive(Clone, Copy, Debug, PartialEq, Eq)]
pub enum Mode {
    NoMode,
    Stop,
    Play,
    Record,
    FastForward,
    Rewind,
    Jog,
    Variable,
    Shuttle,
}

#[derive(Clone, Copy, Debug, PartialEq, Eq)]
pub enum Which {
    In,
    Out,
}

// An entry point: its position and its flag. An `Option` would be no plainer: the position stays when the flag goes off.
#[derive(Clone, Copy, Debug, PartialEq, Eq)]
pub struct Point {
    pub at: u32,
    pub on: bool,
}

// The speed is in thousandths of the play speed, minus in reverse. In and Out stand here as bare positions and flags: a
// `Point` ends in three bytes of padding, which every copy would carry along. A speed bar: an event then took 12 ns, and under 5 without.
#[derive(Clone, Copy, Debug, PartialEq, Eq)]
pub struct Settings {
    pub cassette: bool,
    pub mode: Mode,
    pub local: bool,
    pub speed: i32,
    pub standby: bool,
    pub cued: bool,
    pub position: u32,
    pub inon: bool,
    pub outon: bool,
    pub inat: u32,
    pub outat: u32,
}

impl Settings {
    pub fn power_on() -> Settings
        ensures { result ≡ power_on }
    {
        Settings {
            cassette: true,
            mode: Mode::Stop,
            local: true,
            speed: 0,
            standby: false,
            cued: false,
            position: 0,
            inon: false,
            outon: false,
            inat: 0,
            outat: 0,
        }
    }

    // A cassette is loaded.
    #[tactic(auto, unfolding(crate::specs::Settings::loaded))]
    pub fn load(self) -> Settings
        ensures { result ≡ loaded self }
    {
        if self.cassette {
            self
        } else {
            Settings {
                cassette: true,
                ..self.with_motion(Mode::Stop, 0)
            }
        }
    }

    #[tactic(auto, unfolding(crate::specs::Status::status_bytes))]
    pub fn status(self) -> [u8; 13]
        ensures { result ≡ status_bytes self }
    {
        let mut bytes = [0; 13];
        bytes[0] = self.status0();
        bytes[1] = self.status1();
        bytes[2] = self.status2();
        bytes[3] = self.status3();
        bytes
    }

    pub fn with_motion(self, mode: Mode, speed: i32) -> Settings
        ensures { result ≡ with_motion mode speed self }
    {
        Settings {
            mode,
            speed,
            ..self
        }
    }

    pub fn point(self, which: Which) -> Point
        ensures { result ≡ point_of which self }
    {
        match which {
            Which::In => Point {
                at: self.inat,
                on: self.inon,
            },
            Which::Out => Point {
                at: self.outat,
                on: self.outon,
            },
        }
    }

    pub fn with_point(self, which: Which, point: Point) -> Settings
        ensures { result ≡ with_point which point self }
    {
        match which {
            Which::In => Settings {
                inat: point.at,
                inon: point.on,
                ..self
            },
            Which::Out => Settings {
                outat: point.at,
                outon: point.on,
                ..self
            },
        }
    }
}
