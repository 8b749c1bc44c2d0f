// Replies: each is a block at the front of the output. The settings go by value and the output is lent: a struct of both would be no
// plainer, made once and taken apart in each function here.
#![tactic(auto, unfolding(crate::specs::Execute::carry))]

ghost use Rattle.std.specs.Prelude.{◌≡◌, ◌≤◌, [], length, Some};
ghost use Rattle.execute.specs.Replies.{answered, refused};
ghost use Rattle.execute.specs.Execute.{point_code, why_of, carry, shown, shown_out};

use super::{Executed, Why};
use command::{Effect, ReplyKind};
use effects::{perform, takes};
use settings::{Settings, Which};

// A reply that is no NAK.
fn answer(settings: Settings, group: u8, command: u8, data: &[u8], out: &mut [u8; 18]) -> Executed
    requires { (group ≤ 15) × (length «data».now ≤ 15) }
    ensures answer { result ≡ shown (answered settings group command «data».now) }
    ensures output { out.new ≡ shown_out (answered settings group command «data».now) out.old }
{
    Executed {
        len: block::write(group, command, data, out).unwrap(),
        quiets: false,
        settings,
    }
}

pub(super) fn refuse(settings: Settings, why: Why, out: &mut [u8; 18]) -> Executed
    ensures answer { result ≡ shown (refused settings (why_of why)) }
    ensures output { out.new ≡ shown_out (refused settings (why_of why)) out.old }
{
    let code = why.byte();
    Executed {
        len: super::nak(code, out).unwrap(),
        quiets: super::opens_quiet(code),
        settings,
    }
}

fn acknowledge(effect: Effect, settings: Settings, data: [u8; 4], out: &mut [u8; 18]) -> Executed
    ensures answer { result ≡ shown (carry (Some (ReplyKind.Ack effect)) settings «data») }
    ensures output { out.new ≡ shown_out (carry (Some (ReplyKind.Ack effect)) settings «data») out.old }
{
    if takes(effect, &data) {
        answer(perform(effect, settings, &data), 0x1, 0x01, &[], out)
    } else {
        refuse(settings, Why::Undefined, out)
    }
}

fn point_code(which: Which) -> u8
    ensures { result ≡ point_code which }
{
    match which {
        Which::In => 0x10,
        Which::Out => 0x11,
    }
}

// A position that is none has the time zero, as in `report`: a function for that one call would be no plainer.
fn point_time(which: Which, settings: Settings, out: &mut [u8; 18]) -> Executed
    ensures answer { result ≡ shown (carry (Some (ReplyKind.PointTime which)) settings []) }
    ensures output { out.new ≡ shown_out (carry (Some (ReplyKind.PointTime which)) settings []) out.old }
{
    let time = timecode::time(settings.point(which).at).unwrap_or([0; 4]);
    answer(settings, 0x7, point_code(which), &time, out)
}

fn tape_time(settings: Settings, data: [u8; 4], out: &mut [u8; 18]) -> Executed
    ensures answer { result ≡ shown (carry (Some ReplyKind.TapeTime) settings «data») }
    ensures output { out.new ≡ shown_out (carry (Some ReplyKind.TapeTime) settings «data») out.old }
{
    let code = match data[0] {
        1 | 3 | 4 => 0x04,
        2 => 0x06,
        _ => return refuse(settings, Why::Undefined, out),
    };
    let time = timecode::time(settings.position).unwrap_or([0; 4]);
    answer(settings, 0x7, code, &time, out)
}

fn status(settings: Settings, data: [u8; 4], out: &mut [u8; 18]) -> Executed
    ensures answer { result ≡ shown (carry (Some ReplyKind.Status) settings «data») }
    ensures output { out.new ≡ shown_out (carry (Some ReplyKind.Status) settings «data») out.old }
{
    match data[0] {
        count @ 1..=13 => {
            let bytes = settings.status();
            answer(settings, 0x7, 0x20, &bytes[..usize::from(count)], out)
        }
        _ => refuse(settings, Why::Undefined, out),
    }
}

// A command of the list with its data, or none.
pub(super) fn carry(
    kind: Option<ReplyKind>,
    settings: Settings,
    data: [u8; 4],
    out: &mut [u8; 18],
) -> Executed
    ensures answer { result ≡ shown (carry kind settings «data») }
    ensures output { out.new ≡ shown_out (carry kind settings «data») out.old }
{
    match kind {
        None => refuse(settings, Why::Undefined, out),
        Some(ReplyKind::Ack(effect)) => acknowledge(effect, settings, data, out),
        Some(ReplyKind::Device) => answer(settings, 0x1, 0x11, &[0x00, 0x02], out),
        Some(ReplyKind::PointTime(which)) => point_time(which, settings, out),
        Some(ReplyKind::TapeTime) => tape_time(settings, data, out),
        Some(ReplyKind::Status) => status(settings, data, out),
    }
}
