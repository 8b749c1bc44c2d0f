// What the acknowledged commands do.
#![tactic(auto)]

ghost use Rattle.std.specs.Prelude.{◌≡◌, get_or};
ghost use Rattle.effects.specs.Effects.{shifted, moving, transport, perform, wants_time, fits};

use command::{Direction, Effect, Motion};
use settings::{Mode, Point, Settings};

pub fn first(data: &[u8]) -> u8
    ensures { result ≡ get_or «data».now 0 0 }
{
    data.first().copied().unwrap_or(0)
}

// A position that is none steps to 0.
fn one_frame(direction: Direction, position: u32) -> u32
    ensures { result ≡ shifted direction position }
{
    match direction {
        Direction::Forward => timecode::frame_on(position),
        Direction::Reverse => timecode::frame_back(position),
    }
    .unwrap_or(0)
}

fn start(s: Settings, mode: Mode, speed: i32) -> Settings
    ensures { result ≡ moving mode speed s }
{
    Settings {
        cued: false,
        ..s.with_motion(mode, speed)
    }
}

// The motion commands and eject, with the cassette in.
#[tactic(auto, unfolding(crate::specs::Effects::transport))]
fn move_tape(motion: Motion, s: Settings, data: &[u8]) -> Settings
    ensures { result ≡ transport motion s «data».now }
{
    match motion {
        Motion::Run(mode, speed) => start(s, mode, speed),
        Motion::Vary(mode, direction) => {
            // `speed` takes a flag.
            let reverse = direction == Direction::Reverse;
            start(s, mode, speed::speed(first(data), reverse))
        }
        Motion::Step(direction) => Settings {
            position: one_frame(direction, s.position),
            ..start(s, Mode::Jog, 0)
        },
        Motion::Cue => match timecode::position(data) {
            Ok(position) => Settings {
                cued: true,
                position,
                ..s.with_motion(Mode::Stop, 0)
            },
            Err(_) => s,
        },
        Motion::Eject => Settings {
            cassette: false,
            ..start(s, Mode::NoMode, 0)
        },
    }
}

#[tactic(auto, unfolding(crate::specs::Effects::perform))]
pub fn perform(effect: Effect, s: Settings, data: &[u8]) -> Settings
    ensures { result ≡ perform effect s «data».now }
{
    match effect {
        Effect::Local(local) => Settings { local, ..s },
        Effect::Standby(standby) => Settings { standby, ..s },
        Effect::Transport(motion) if s.cassette => move_tape(motion, s, data),
        Effect::Transport(_) => s,
        Effect::Take(which) => {
            let at = s.position;
            s.with_point(which, Point { at, on: true })
        }
        Effect::Preset(which) => match timecode::position(data) {
            Ok(at) => s.with_point(which, Point { at, on: true }),
            Err(_) => s,
        },
        Effect::Shift(which, direction) => {
            let point = s.point(which);
            s.with_point(
                which,
                Point {
                    at: one_frame(direction, point.at),
                    ..point
                },
            )
        }
        Effect::Flag(which, on) => s.with_point(
            which,
            Point {
                on,
                ..s.point(which)
            },
        ),
    }
}

fn wants_time(effect: Effect) -> bool
    ensures { result ≡ wants_time effect }
{
    matches!(effect, Effect::Transport(Motion::Cue) | Effect::Preset(_))
}

// The data test.
pub fn takes(effect: Effect, data: &[u8]) -> bool
    ensures { result ≡ fits effect «data».now }
{
    !wants_time(effect) || timecode::position(data).is_ok()
}
