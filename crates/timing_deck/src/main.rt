// A loop to be timed from outside: sends the bytes on standard input to a deck 20,000 times and prints how many replies came.
#![tactic(auto)]

use deck::Deck;

const ROUNDS: u32 = 20000;

fn play(block: &[u8]) -> u64 {
    let mut out = [0; 18];
    let mut deck = Deck::power_on();
    let mut replies: u64 = 0;
    for round in 0..ROUNDS {
        for byte in block {
            if let Ok(answer) = deck.byte(u64::from(round), *byte, 0, &mut out) {
                deck = answer.deck;
                if answer.first.is_some() {
                    replies = replies.wrapping_add(1);
                }
            }
        }
    }
    replies
}

// Three lines, as in timing. A function for both would take what differs, the loop and the word that is printed, and save no line.
fn main(rt: HostRuntime) {
    let mut buf = [0; 65536];
    let replies = play(streams::read_front(&mut rt.stdin(), &mut buf));
    let _ = println!(rt; "replies {replies}");
}
