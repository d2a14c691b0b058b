// The row that a refusal with 16 is about.
#![tactic(auto)]

ghost use Rattle.std.specs.Prelude.{◌≡◌, not, ◌<◌, leb};
ghost use Rattle.laws.specs.Choice.{both};
ghost use Rattle.steps.specs.Faults.{terms};
ghost use Rattle.steps.specs.Reads.{reads};
ghost use Rattle.steps.specs.Sets.{in_set};
ghost use Rattle.steps.specs.Steps.{steps_of};
ghost use Rattle.laws.specs.Search.{found};
ghost use Rattle.unfilled.specs.Rows.{first_not, unfilled_row};

use steps::bytes::step_at;
use steps::faults::{has_row, with_row};
use steps::lawful::{LawfulStep, lawful_step};
use steps::rules::values_of;

// Whether a byte names a row that is read and is not in a set. A byte with one value is not used, and names none.
fn lacks(filled: u16, values: u8, row: u8) -> bool
    requires { row < 16 }
    ensures { result ≡ both (leb 2 values) (not (in_set filled row)) }
{
    (2 <= values) & !has_row(filled, row)
}

// The first row that a step reads of those that are not in a set.
#[tactic(auto, using(steps::proofs::Kept::bytes_small))]
fn missing(s: LawfulStep, filled: u16) -> Option<u8>
    ensures { found result ≡ first_not (in_set filled) (reads s.step) }
{
    let s = s.step;
    let v = values_of(s.kind);
    if lacks(filled, v.a, s.a) {
        return Some(s.a);
    }
    if lacks(filled, v.b, s.b) {
        return Some(s.b);
    }
    if lacks(filled, v.c, s.c) {
        return Some(s.c);
    }
    None
}

// The row that the first fault of a sheet is about, where that is a row that nobody filled: the first that its step
// reads of those. A step's target is filled after the step.
pub fn unfilled_row(sheet: &[u8], filled: u16) -> Option<u8>
    ensures { found result ≡ unfilled_row (terms filled) (steps_of sheet.now) }
{
    let mut known = filled;
    for i in 0..sheet.len() / 24 {
        let Some(s) = lawful_step(step_at(sheet, 24 * i)) else {
            return None;
        };
        if let Some(r) = missing(s, known) {
            return Some(r);
        }
        known = with_row(known, s.step.target);
    }
    None
}
