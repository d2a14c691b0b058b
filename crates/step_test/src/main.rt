// Steps the cases on standard input, which tools/emulate made with an ARM emulator, and compares what is left.
// Each line has 1040 bytes: hw1 hw2, the mark and D0 to D31 before, the mark and D0 to D31 after, in hexadecimal.
#![tactic(auto)]

use effects::State;
use replay::{Blocks, Tally, half_at, state_of};

// Whether a line's pair takes one state to the other.
fn agrees(line: &[u8; 1040], before: State, after: State) -> bool {
    machine::step(before, half_at(line, 0), half_at(line, 5)) == Ok(after)
}

fn main() {
    let mut tally = Tally::default();
    for line in Blocks::<1040>::new(10000000) {
        let before = state_of(&line[10..]);
        let after = state_of(&line[525..]);
        tally.count(&before, &after, agrees(&line, before, after));
    }
    tally.put(b"steps ");
}
