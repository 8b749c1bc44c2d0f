// A loop to be timed from outside: marks the record on standard input 1,000 times and prints how many turns that were.
#![tactic(auto)]

const ROUNDS: u32 = 1000;

fn mark(bytes: &[u8]) -> u64 {
    let mut table = [0; 5461];
    let mut turns: u64 = 0;
    for _ in 0..ROUNDS {
        if let Ok(findings) = marker::mark(bytes, &mut table) {
            turns = turns.wrapping_add(findings.count as u64);
        }
    }
    turns
}

// Three lines, as in timing_deck. A function for both would take what differs, the loop and the word that is printed, and save no line.
fn main(rt: HostRuntime) {
    let mut buf = [0; 65536];
    let turns = mark(streams::read_front(&mut rt.stdin(), &mut buf));
    let _ = println!(rt; "turns {turns}");
}
