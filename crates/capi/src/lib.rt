// The C boundary; include/bodlixo.h has the declarations.
#![tactic(auto)]

ghost use Rattle.std.specs.Prelude.{◌≡◌, ℕ, length};
ghost use Rattle.insn.specs.Refusals.{number};
ghost use Rattle.editions.specs.Editions.{edition_of};
ghost use Rattle.decode.specs.Editions.{reading_in};
ghost use Rattle.runs.specs.Run.{Run, run_of};
ghost use Rattle.steps.specs.Answers.{answer_at};
ghost use Rattle.steps.specs.Faults.{terms};
ghost use Rattle.sheet.specs.Demand3.{Demand3};
ghost use Rattle.sheet.specs.Evaluation.{evaluation_of, state_left};
ghost use Rattle.translator.specs.Translation.{translation_of, written_of};
ghost use Rattle.encode.specs.Writing.{writing_in};
ghost use Rattle.listing.specs.Answers.{length_for, out_after};
ghost use Rattle.lines.specs.Listing.{listing};
ghost use Rattle.words.specs.Records.{record_of};
ghost use Rattle.capi.specs.Results.{return_code, record_after, pair_after, end_code, code_at, count_or_place, executed_or0, accepted_or0, mark_in, mark_out, lent};

use editions::edition_of;
use insn::Refusal;
use steps::faults::SheetError;

// The code of a refusal: its number.
fn code_of(f: Refusal) -> u32
    ensures { result ≡ number f }
{
    u32::from(u8::from(f))
}

// Reads a pair in an edition: 0 and its record, or the refusal's number with the record untouched.
#[unsafe(no_mangle)]
pub extern "C" fn bodlixo_read(
    edition: u32,
    hw1: u16,
    hw2: u16,
    address: u32,
    out: &mut [u64; 10],
) -> u32
    ensures code { result ≡ return_code (reading_in (edition_of edition) hw1 hw2 address) }
    ensures record { out.new ≡ record_after (reading_in (edition_of edition) hw1 hw2 address) out.old }
{
    match decode::read(edition_of(edition), hw1, hw2, address) {
        Ok(i) => {
            *out = words::record_words(i);
            0
        }
        Err(f) => code_of(f),
    }
}

// Writes a record in an edition: 0 and its pair, or the refusal's number with the pair untouched.
#[unsafe(no_mangle)]
pub extern "C" fn bodlixo_write(edition: u32, words: &[u64; 10], pair: &mut [u16; 2]) -> u32
    ensures code { result ≡ return_code (writing_in (edition_of edition) (record_of words.now)) }
    ensures pair { pair.new ≡ pair_after (writing_in (edition_of edition) (record_of words.now)) pair.old }
{
    match encode::write(edition_of(edition), words::records::record_of(words)) {
        Ok((hw1, hw2)) => {
            *pair = [hw1, hw2];
            0
        }
        Err(f) => code_of(f),
    }
}

// Runs the pairs of the code from a start on: 0 when done, or the refusal's number; in any case the pairs executed, and
// the file and the mark that they left.
#[unsafe(no_mangle)]
pub extern "C" fn bodlixo_run(
    code: &[u16],
    start: u64,
    file: &mut [u64],
    budget: u64,
    mark: &mut u8,
    executed: &mut u64,
) -> u32
    ensures code { result ≡ end_code (run_of code.now start (lent file.old mark.old) budget).ending }
    ensures executed { executed.new ≡ (run_of code.now start (lent file.old mark.old) budget).executed }
    ensures file { file.new ≡ (run_of code.now start (lent file.old mark.old) budget).state.file }
    ensures mark { mark.new ≡ mark_out (run_of code.now start (lent file.old mark.old) budget).state.mark }
{
    let mut saturated = *mark != 0;
    let ran = runs::run(code, start, file, budget, &mut saturated);
    *mark = saturated as u8;
    *executed = ran.executed;
    match ran.outcome {
        Ok(()) => 0,
        Err(f) => code_of(f),
    }
}

// Translates a sheet, and tells the pair count, or the index of the refused step, else 0.
fn translate(sheet: &[u8], filled: u16, out: &mut [u16], at: &mut u64) -> Result<u64, SheetError>
    ensures answer { answer_at result ≡ translation_of (terms filled) sheet.now (length out.old) }
    ensures at { at.new ≡ count_or_place (translation_of (terms filled) sheet.now (length out.old)) }
    ensures out { out.new ≡ written_of (terms filled) sheet.now out.old }
{
    let answer = translator::translate(sheet, filled, out);
    *at = match answer {
        Ok(n) => n,
        Err(e) => e.step.unwrap_or(0),
    };
    answer
}

// Translates a sheet into the output, with the list of the rows that were filled beforehand: 0 and the pair count, or the
// refusal's number and its step's index, else 0.
#[unsafe(no_mangle)]
pub extern "C" fn bodlixo_translate(sheet: &[u8], filled: u16, out: &mut [u16], at: &mut u64) -> u32
    ensures code { result ≡ code_at (λ (n : ℕ). 0) (translation_of (terms filled) sheet.now (length out.old)) }
    ensures at { at.new ≡ count_or_place (translation_of (terms filled) sheet.now (length out.old)) }
    ensures out { out.new ≡ written_of (terms filled) sheet.now out.old }
{
    let answer = translate(sheet, filled, out, at);
    match answer {
        Ok(_) => 0,
        Err(e) => code_of(e.cause),
    }
}

// Translates a sheet into the output, with the list of filled rows, and runs the pairs on the file: 0 when done; or the
// translation's refusal, with the file as it was and 0 executed; or the run's. `at` is as in `bodlixo_translate`. The mark
// stays as it came, as 0 or 1.
#[unsafe(no_mangle)]
pub extern "C" fn bodlixo_evaluate(
    sheet: &[u8],
    filled: u16,
    out: &mut [u16],
    file: &mut [u64],
    budget: u64,
    mark: &mut u8,
    executed: &mut u64,
    at: &mut u64,
) -> u32
    ensures code { result ≡ code_at (λ (r : Run). end_code r.ending) (evaluation_of (terms filled) sheet.now out.old (lent file.old mark.old) budget) }
    ensures executed { executed.new ≡ executed_or0 (evaluation_of (terms filled) sheet.now out.old (lent file.old mark.old) budget) }
    ensures at { at.new ≡ count_or_place (translation_of (terms filled) sheet.now (length out.old)) }
    ensures out { out.new ≡ written_of (terms filled) sheet.now out.old }
    ensures file { file.new ≡ (state_left (evaluation_of (terms filled) sheet.now out.old (lent file.old mark.old) budget) (lent file.old mark.old)).file }
    ensures mark { mark.new ≡ mark_out (mark_in mark.old) }
    ensures demand3 { Demand3 (terms filled) sheet.now out.old (lent file.old mark.old) budget out.new (lent file.new mark.new) (evaluation_of (terms filled) sheet.now out.old (lent file.old mark.old) budget) }
{
    match translate(sheet, filled, out, at) {
        Ok(n) => bodlixo_run(&out[..2 * n as usize], 0, file, budget, mark, executed),
        Err(e) => {
            *executed = 0;
            *mark = (*mark != 0) as u8;
            code_of(e.cause)
        }
    }
}

// Lists the pairs of the input: 0 and the listing's length, or 14 and 0 with out untouched.
#[unsafe(no_mangle)]
pub extern "C" fn bodlixo_list(input: &[u8], out: &mut [u8], size: &mut u64) -> u32
    ensures code { result ≡ return_code (length_for (listing input.now) out.old) }
    ensures out { out.new ≡ out_after (listing input.now) out.old }
    ensures size { size.new ≡ accepted_or0 (length_for (listing input.now) out.old) }
{
    match listing::list(input, out) {
        Ok(n) => {
            *size = n as u64;
            0
        }
        Err(f) => {
            *size = 0;
            code_of(f)
        }
    }
}
