// Asks the decoder for every pair of first byte and command byte, and prints those that are listed, in ascending order.
//
// tests/command_cases.py makes the lines to expect from the list of tests/deck.py.
#![tactic(auto)]

fn main(rt: HostRuntime) {
    for first in 0..=255 {
        for command in 0..=255 {
            if command::find(first, command).is_some() {
                let _ = println!(rt; "{first:02X}.{command:02X}");
            }
        }
    }
}
