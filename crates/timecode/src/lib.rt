// Times and positions: four BCD bytes, frames first, and the number of the frame in its day.
#![tactic(auto)]

ghost use Rattle.std.specs.Prelude.{◌≡◌, ◌<◌, ◌+◌, ◌%◌, if◌then◌else◌, nat_lt, Ok, Err};
ghost use Rattle.timecode.specs.Bcd.{bcd, bcd_value, bcd_below};
ghost use Rattle.timecode.specs.Time.{day, placed_by, timed_by, read_time, write_time, frame_on, frame_back};

use refusal::Refusal;

const FRAMES: u32 = 25;

// The positions of a day.
pub const DAY: u32 = 24 * 60 * 60 * FRAMES;

// The number below the limit that a BCD byte stands for.
fn digits(limit: u32, byte: u8) -> Result<u32, Refusal>
    ensures { result ≡ if bcd_below limit byte then Ok (bcd_value byte) else Err Refusal.Field }
{
    let tens = u32::from(byte >> 4);
    let units = u32::from(byte & 15);
    let value = tens * 10 + units;
    if tens < 10 && units < 10 && value < limit {
        Ok(value)
    } else {
        Err(Refusal::Field)
    }
}

fn bcd_of(n: u32) -> u8
    requires { n < 100 }
    ensures { result ≡ bcd n }
{
    (n / 10 << 4 | n % 10) as u8
}

#[tactic(auto, unfolding(crate::specs::Time::read_time))]
pub fn position(time: &[u8]) -> Result<u32, Refusal>
    ensures { placed_by result ≡ read_time time.now }
{
    let [f, s, m, h] = *time else {
        return Err(Refusal::Field);
    };
    let f = digits(FRAMES, f)?;
    let s = digits(60, s)?;
    let m = digits(60, m)?;
    let h = digits(24, h)?;
    Ok(((h * 60 + m) * 60 + s) * FRAMES + f)
}

fn in_day(position: u32) -> Result<u32, Refusal>
    ensures { result ≡ if nat_lt position day then Ok position else Err Refusal.Place }
{
    if position < DAY {
        Ok(position)
    } else {
        Err(Refusal::Place)
    }
}

#[tactic(auto, unfolding(crate::specs::Time::write_time))]
pub fn time(position: u32) -> Result<[u8; 4], Refusal>
    ensures { timed_by result ≡ write_time position }
{
    let seconds = in_day(position)? / FRAMES;
    let minutes = seconds / 60;
    Ok([
        bcd_of(position % FRAMES),
        bcd_of(seconds % 60),
        bcd_of(minutes % 60),
        bcd_of(minutes / 60),
    ])
}

// So many frames on, round at the day's end.
fn turned(position: u32, frames: u32) -> Result<u32, Refusal>
    requires { frames < day }
    ensures { result ≡ if nat_lt position day then Ok ((position + frames) % day) else Err Refusal.Place }
{
    Ok((in_day(position)? + frames) % DAY)
}

#[tactic(auto, unfolding(crate::specs::Time::frame_on))]
pub fn frame_on(position: u32) -> Result<u32, Refusal>
    ensures { placed_by result ≡ frame_on position }
{
    turned(position, 1)
}

#[tactic(auto, unfolding(crate::specs::Time::frame_back))]
pub fn frame_back(position: u32) -> Result<u32, Refusal>
    ensures { placed_by result ≡ frame_back position }
{
    turned(position, DAY - 1)
}
