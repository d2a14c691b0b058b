// Replays the runs on standard input, which tools/runs made with an ARM emulator: each is cut at every place and gone on
// with, and ends as the whole run did there. Each line has 1162 bytes: 12 pairs, how many of them there are, the start,
// the answer with a budget of 12, the pairs executed, the mark and D0 to D31 before, the mark and D0 to D31 after, in
// hexadecimal.
#![tactic(auto)]

use effects::State;
use insn::Refusal;
use replay::{Blocks, Tally, field, half_at, number_of, state_of};
use runs::{Ran, run};

// The halfwords of a line's pairs.
fn code_of(line: &[u8; 1162]) -> [u16; 24] {
    std::array::from_fn(|k| half_at(line, 5 * k))
}

// A run with a first budget and, where it can go on, with a second one.
fn in_two(code: &[u16], start: u64, state: &mut State, cut: u64) -> Ran {
    let first = run(code, start, &mut state.file, cut, &mut state.mark);
    if let Err(f) = first.outcome
        && f != Refusal::BudgetSpent
    {
        return first;
    }
    let second = run(
        code,
        start.wrapping_add(first.executed),
        &mut state.file,
        12u64.saturating_sub(cut),
        &mut state.mark,
    );
    Ran {
        outcome: second.outcome,
        executed: first.executed.wrapping_add(second.executed),
    }
}

// Whether a line's run, cut after so many pairs, takes one state to the other and ends as the line says.
fn agrees(line: &[u8; 1162], before: State, after: State, cut: u64) -> bool {
    let code = code_of(line);
    let halfwords = 2 * (field(line, 120, 2) % 13) as usize;
    let mut state = before;
    let ran = in_two(&code[..halfwords], field(line, 123, 2), &mut state, cut);
    u64::from(number_of(ran.outcome)) == field(line, 126, 2)
        && ran.executed == field(line, 129, 2)
        && state == after
}

fn main() {
    let mut tally = Tally::default();
    for line in Blocks::<1162>::new(1000000) {
        let before = state_of(&line[132..]);
        let after = state_of(&line[647..]);
        let same = (0..13).all(|cut| agrees(&line, before, after, cut));
        tally.count(&before, &after, same);
    }
    tally.put(b"runs ");
}
