// The listed commands, and the decoder that searches them.
#![tactic(auto)]

ghost use Rattle.std.specs.Prelude.{◌≡◌, ◌+◌, ◌*◌, ◌≤◌, drop};
ghost use Rattle.std.specs.Option.{option_or};
ghost use Rattle.command.specs.Commands.{commands, lookup};

use settings::{Mode, Which};

#[derive(Clone, Copy, Debug, PartialEq, Eq)]
pub enum Direction {
    Forward,
    Reverse,
}

// What the motion commands and eject do.
#[derive(Clone, Copy, Debug, PartialEq, Eq)]
pub enum Motion {
    Run(Mode, i32),
    Vary(Mode, Direction),
    Step(Direction),
    Cue,
    Eject,
}

// What the acknowledged commands do.
#[derive(Clone, Copy, Debug, PartialEq, Eq)]
pub enum Effect {
    Local(bool),
    Standby(bool),
    Transport(Motion),
    Take(Which),
    Preset(Which),
    Shift(Which, Direction),
    Flag(Which, bool),
}

#[derive(Clone, Copy, Debug, PartialEq, Eq)]
pub enum ReplyKind {
    Ack(Effect),
    Device,
    PointTime(Which),
    TapeTime,
    Status,
}

const ROWS: usize = 36;

// The first byte has the exact count of data bytes in its low four bits.
#[derive(Clone, Copy)]
struct Command {
    first: u8,
    command: u8,
    kind: ReplyKind,
}

const COMMANDS: [Command; ROWS] = [
    Command {
        first: 0x00,
        command: 0x0C,
        kind: ReplyKind::Ack(Effect::Local(false)),
    },
    Command {
        first: 0x00,
        command: 0x1D,
        kind: ReplyKind::Ack(Effect::Local(true)),
    },
    Command {
        first: 0x00,
        command: 0x11,
        kind: ReplyKind::Device,
    },
    Command {
        first: 0x20,
        command: 0x00,
        kind: ReplyKind::Ack(Effect::Transport(Motion::Run(Mode::Stop, 0))),
    },
    Command {
        first: 0x20,
        command: 0x01,
        kind: ReplyKind::Ack(Effect::Transport(Motion::Run(Mode::Play, 1000))),
    },
    Command {
        first: 0x20,
        command: 0x02,
        kind: ReplyKind::Ack(Effect::Transport(Motion::Run(Mode::Record, 1000))),
    },
    Command {
        first: 0x20,
        command: 0x10,
        kind: ReplyKind::Ack(Effect::Transport(Motion::Run(Mode::FastForward, 32000))),
    },
    Command {
        first: 0x20,
        command: 0x20,
        kind: ReplyKind::Ack(Effect::Transport(Motion::Run(Mode::Rewind, -32000))),
    },
    Command {
        first: 0x20,
        command: 0x04,
        kind: ReplyKind::Ack(Effect::Standby(false)),
    },
    Command {
        first: 0x20,
        command: 0x05,
        kind: ReplyKind::Ack(Effect::Standby(true)),
    },
    Command {
        first: 0x20,
        command: 0x0F,
        kind: ReplyKind::Ack(Effect::Transport(Motion::Eject)),
    },
    Command {
        first: 0x21,
        command: 0x11,
        kind: ReplyKind::Ack(Effect::Transport(Motion::Vary(Mode::Jog, Direction::Forward))),
    },
    Command {
        first: 0x21,
        command: 0x12,
        kind: ReplyKind::Ack(Effect::Transport(Motion::Vary(Mode::Variable, Direction::Forward))),
    },
    Command {
        first: 0x21,
        command: 0x13,
        kind: ReplyKind::Ack(Effect::Transport(Motion::Vary(Mode::Shuttle, Direction::Forward))),
    },
    Command {
        first: 0x21,
        command: 0x21,
        kind: ReplyKind::Ack(Effect::Transport(Motion::Vary(Mode::Jog, Direction::Reverse))),
    },
    Command {
        first: 0x21,
        command: 0x22,
        kind: ReplyKind::Ack(Effect::Transport(Motion::Vary(Mode::Variable, Direction::Reverse))),
    },
    Command {
        first: 0x21,
        command: 0x23,
        kind: ReplyKind::Ack(Effect::Transport(Motion::Vary(Mode::Shuttle, Direction::Reverse))),
    },
    Command {
        first: 0x20,
        command: 0x14,
        kind: ReplyKind::Ack(Effect::Transport(Motion::Step(Direction::Forward))),
    },
    Command {
        first: 0x20,
        command: 0x24,
        kind: ReplyKind::Ack(Effect::Transport(Motion::Step(Direction::Reverse))),
    },
    Command {
        first: 0x24,
        command: 0x31,
        kind: ReplyKind::Ack(Effect::Transport(Motion::Cue)),
    },
    Command {
        first: 0x40,
        command: 0x10,
        kind: ReplyKind::Ack(Effect::Take(Which::In)),
    },
    Command {
        first: 0x40,
        command: 0x11,
        kind: ReplyKind::Ack(Effect::Take(Which::Out)),
    },
    Command {
        first: 0x44,
        command: 0x14,
        kind: ReplyKind::Ack(Effect::Preset(Which::In)),
    },
    Command {
        first: 0x44,
        command: 0x15,
        kind: ReplyKind::Ack(Effect::Preset(Which::Out)),
    },
    Command {
        first: 0x40,
        command: 0x18,
        kind: ReplyKind::Ack(Effect::Shift(Which::In, Direction::Forward)),
    },
    Command {
        first: 0x40,
        command: 0x19,
        kind: ReplyKind::Ack(Effect::Shift(Which::In, Direction::Reverse)),
    },
    Command {
        first: 0x40,
        command: 0x1A,
        kind: ReplyKind::Ack(Effect::Shift(Which::Out, Direction::Forward)),
    },
    Command {
        first: 0x40,
        command: 0x1B,
        kind: ReplyKind::Ack(Effect::Shift(Which::Out, Direction::Reverse)),
    },
    Command {
        first: 0x40,
        command: 0x20,
        kind: ReplyKind::Ack(Effect::Flag(Which::In, false)),
    },
    Command {
        first: 0x40,
        command: 0x21,
        kind: ReplyKind::Ack(Effect::Flag(Which::Out, false)),
    },
    Command {
        first: 0x40,
        command: 0x24,
        kind: ReplyKind::Ack(Effect::Flag(Which::In, true)),
    },
    Command {
        first: 0x40,
        command: 0x25,
        kind: ReplyKind::Ack(Effect::Flag(Which::Out, true)),
    },
    Command {
        first: 0x60,
        command: 0x10,
        kind: ReplyKind::PointTime(Which::In),
    },
    Command {
        first: 0x60,
        command: 0x11,
        kind: ReplyKind::PointTime(Which::Out),
    },
    Command {
        first: 0x61,
        command: 0x0C,
        kind: ReplyKind::TapeTime,
    },
    Command {
        first: 0x61,
        command: 0x20,
        kind: ReplyKind::Status,
    },
];

// The one function that names the table: the prover reads the whole of it in each that does.
#[tactic(auto, unfolding(crate::specs::Commands::commands))]
fn rows() -> [Command; ROWS]
    ensures { result ≡ commands }
{
    COMMANDS
}

// The two bytes as one number. A speed bar: by `u16::from_be_bytes` each command takes one or two instructions more.
fn code(first: u8, command: u8) -> u32
    ensures { result ≡ first * 256 + command }
{
    u32::from(first) * 256 + u32::from(command)
}

const THIRD: usize = ROWS / 3;

const TWO_THIRDS: usize = THIRD * 2;

// What the rows of a part of the table answer. A speed bar: inlined, with the table lent, a loop of twelve rows is unrolled, each row is
// known, and the search is one switch on the code. Not inlined, or over a slice of the table, it makes the deck take three times the
// instructions, and with one `for` over the rows of a static a search takes 1.4 times.
#[inline(always)]
fn among(
    table: &[Command; ROWS],
    first: u8,
    command: u8,
    from: usize,
    to: usize,
) -> Option<ReplyKind>
    requires { (table.now ≡ commands) × ((from ≤ to) × (to ≤ 36)) }
    ensures { lookup (drop from commands) first command ≡ option_or result (lookup (drop to commands) first command) }
{
    let wanted = code(first, command);
    for i in from..to {
        let row = table[i];
        if code(row.first, row.command) == wanted {
            return Some(row.kind);
        }
    }
    None
}

pub fn find(first: u8, command: u8) -> Option<ReplyKind>
    ensures { result ≡ lookup commands first command }
{
    let table = rows();
    among(&table, first, command, 0, THIRD)
        .or_else(|| among(&table, first, command, THIRD, TWO_THIRDS))
        .or_else(|| among(&table, first, command, TWO_THIRDS, ROWS))
}
