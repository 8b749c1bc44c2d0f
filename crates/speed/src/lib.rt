// What the speed byte of jog, variable and shuttle means, and the size of a speed.
#![tactic(auto)]

ghost use Rattle.std.specs.Prelude.{◌≡◌, ◌+◌, ◌<◌, ◌^◌, pos, nat_abs};
ghost use Rattle.speed.specs.Speed.{IsSpeed, speed_of, signed};

// 2^28 times the 32nd root of 10^k, rounded up or down so that the rule holds.
const ROOTS: [u32; 32] = [
    268435456, 288462842, 309984428, 333111694, 357964434, 384671383, 413370879, 444211582,
    477353245, 512967533, 551238926, 592365666, 636560782, 684053199, 735088923, 789932311,
    848867446, 912199602, 980256834, 1053391667, 1131982931, 1216437720, 1307193497, 1404720364,
    1509523501, 1622145771, 1743170543, 1873224712, 2012981940, 2163166151, 2324555280, 2497985301,
];

// A speed bar: with std's `pow` the deck takes a thirtieth more instructions.
fn tens(j: u8) -> u64
    requires { j < 8 }
    ensures { result ≡ 10 ^ (j + 1) }
{
    match j {
        0 => 10,
        1 => 100,
        2 => 1000,
        3 => 10000,
        4 => 100000,
        5 => 1000000,
        6 => 10000000,
        _ => 100000000,
    }
}

// In thousandths of the play speed: the 32nd root of 10^(n + 32), cut off; 0 for 0.
fn forward(n: u8) -> i32
    ensures { result ≡ pos (speed_of n) }
{
    if n == 0 {
        return 0;
    }
    let root = ROOTS[(n % 32) as usize] as u64;
    (root * tens(n / 32) / 268435456) as i32
}

// The way is a flag. What may not change: the contract has it so (`signed`).
#[tactic(auto, using(crate::proofs::Rule::rule, crate::proofs::Rule::small))]
pub fn speed(n: u8, reverse: bool) -> i32
    ensures { (result ≡ signed reverse (speed_of n)) × IsSpeed n (speed_of n) }
{
    let v = forward(n);
    if reverse { -v } else { v }
}

// In 64 bits, as what is printed is. It is std's now, and stays: what may not change, a public function.
pub fn size(v: i32) -> u64
    ensures { result ≡ nat_abs v }
{
    u64::from(v.unsigned_abs())
}
