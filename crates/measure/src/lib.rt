// The first fault of steps, or how many pairs they are written as.
#![tactic(auto)]

ghost use Rattle.std.specs.Prelude.{◌≡◌, ℕ, ◌*◌, ◌/◌, ◌≤◌, length};
ghost use Rattle.laws.specs.AnswerAt.{accepted};
ghost use Rattle.steps.specs.Answers.{answer_at};
ghost use Rattle.recipes.specs.Pairs.{add_byte, word_pairs, half_pairs, pairs_by, pairs_of};
ghost use Rattle.steps.specs.Faults.{first_fault, unless_fault};
ghost use Rattle.steps.specs.Steps.{steps_of};

use recipes::{Recipe, recipe_of};
use steps::Terms;
use steps::bytes::step_at;
use steps::faults::{SheetError, step_fault, with_row};
use steps::lawful::LawfulStep;

// A byte of a constant's word, the word, and the half.
fn of_byte(byte: u32) -> u64
    ensures { ((r : ℕ) → result ≡ length (add_byte r byte)) × (result ≤ 1) }
{
    if byte == 0 { 0 } else { 1 }
}

fn of_word(v: u32) -> u64
    ensures { ((r : ℕ) → result ≡ length (word_pairs r v)) × (result ≤ 4) }
{
    1 + of_byte(v / 0x100 % 0x100 * 0x100)
        + of_byte(v / 0x1_0000 % 0x100 * 0x1_0000)
        + of_byte(v / 0x100_0000 % 0x100 * 0x100_0000)
}

fn of_half(v: u64) -> u64
    ensures { ((r : ℕ) → result ≡ length (half_pairs r v)) × (result ≤ 10) }
{
    let half = recipe_of(v);
    match half {
        Recipe::One(_) => 1,
        Recipe::Twice(word) => of_word(word),
        Recipe::Joined(low, high) => of_word(low) + of_word(high) + 2,
    }
}

// The pairs of a step.
fn of_step(s: LawfulStep) -> u64
    ensures { (result ≡ length (pairs_by s.step.kind s.step)) × (result ≤ 20) }
{
    let k = s.step.kind;
    if k == 0 {
        of_half(s.step.low) + of_half(s.step.high)
    } else if k == 8 {
        2
    } else if k == 14 {
        3
    } else {
        1
    }
}

// The pairs of a sheet's steps; or the first fault. A step's target is filled after the step.
pub fn measure(sheet: &[u8], terms: Terms) -> Result<u64, SheetError>
    requires { length sheet.now / 24 ≤ 256 }
    ensures { answer_at result ≡ unless_fault (first_fault terms (steps_of sheet.now)) (accepted (length (pairs_of (steps_of sheet.now)))) }
{
    let mut filled = terms.filled;
    let mut pairs = 0;
    for i in 0..sheet.len() / 24 {
        let s = match step_fault(step_at(sheet, 24 * i), filled) {
            Ok(s) => s,
            Err(cause) => {
                return Err(SheetError {
                    cause,
                    step: Some(i as u64),
                });
            }
        };
        pairs += of_step(s);
        filled = with_row(filled, s.step.target);
    }
    Ok(pairs)
}
