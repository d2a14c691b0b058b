// Sum sheets translated and run.
#![tactic(auto)]

ghost use Rattle.std.specs.Prelude.{◌≡◌};
ghost use Rattle.translator.specs.Translation.{written_of};
ghost use Rattle.machine.specs.State.{state};
ghost use Rattle.steps.specs.Faults.{terms};
ghost use Rattle.sheet.specs.Answers.{evaluation_answer};
ghost use Rattle.sheet.specs.Demand3.{Demand3};
ghost use Rattle.sheet.specs.Evaluation.{evaluation_of, state_left};

use runs::{Ran, run};
use steps::faults::SheetError;
use translator::translate;

// Translates a sheet into the output, with the list of the rows that were filled beforehand, and runs the pairs that were
// written on the file and the mark.
pub fn evaluate(
    sheet: &[u8],
    filled: u16,
    out: &mut [u16],
    file: &mut [u64],
    budget: u64,
    mark: &mut bool,
) -> Result<Ran, SheetError>
    ensures answer { evaluation_answer result (state file.new mark.new) ≡ evaluation_of (terms filled) sheet.now out.old (state file.old mark.old) budget }
    ensures written { out.new ≡ written_of (terms filled) sheet.now out.old }
    ensures left { state file.new mark.new ≡ state_left (evaluation_of (terms filled) sheet.now out.old (state file.old mark.old) budget) (state file.old mark.old) }
    ensures demand3 { Demand3 (terms filled) sheet.now out.old (state file.old mark.old) budget out.new (state file.new mark.new) (evaluation_answer result (state file.new mark.new)) }
{
    let n = translate(sheet, filled, out)?;
    Ok(run(&out[..2 * n as usize], 0, file, budget, mark))
}
