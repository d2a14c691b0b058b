// Sum sheets written as pairs.
#![tactic(auto)]

ghost use Rattle.std.specs.Prelude.{◌≡◌, length};
ghost use Rattle.steps.specs.Faults.{terms};
ghost use Rattle.steps.specs.Answers.{answer_at};
ghost use Rattle.translator.specs.Translation.{translation_of, written_of};

use emit::put_steps;
use insn::Refusal;
use measure::measure;
use steps::Terms;
use steps::faults::SheetError;

// Translates a sheet into the output, where row r was filled beforehand if bit r of the list is set. A refusal writes
// nothing.
#[tactic(auto, using(crate::proofs::Translations::breaks, crate::proofs::Translations::kept))]
pub fn translate(sheet: &[u8], filled: u16, out: &mut [u16]) -> Result<u64, SheetError>
    ensures answer { answer_at result ≡ translation_of (terms filled) sheet.now (length out.old) }
    ensures written { out.new ≡ written_of (terms filled) sheet.now out.old }
{
    if sheet.len() % 24 != 0 || 6144 < sheet.len() {
        return Err(SheetError {
            cause: Refusal::SheetLength,
            step: None,
        });
    }
    let pairs = measure(sheet, Terms { filled })?;
    if ((out.len() / 2) as u64) < pairs {
        return Err(SheetError {
            cause: Refusal::ShortOutput,
            step: None,
        });
    }
    put_steps(sheet, out);
    Ok(pairs)
}
