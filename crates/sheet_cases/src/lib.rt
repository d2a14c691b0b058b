// The cases of `sheet_test`: a sheet translated and its pairs run, held to what the case's line says.
#![tactic(auto)]

use insn::Refusal;
use replay::{digit, field, file_at, half_at, number_of};
use runs::{Ran, run};
use steps::faults::SheetError;

// The bytes of the second line.
pub fn bytes_of(text: &[u8; 12400]) -> [u8; 6200] {
    std::array::from_fn(|i| (digit(text[2 * i]) * 16 + digit(text[2 * i + 1])) as u8)
}

// The sum by which a whole output is compared, a halfword at a time.
fn check(out: &[u16]) -> u64 {
    out.iter().fold(
        0,
        |sum, half| sum % 0x1_0000_0000_0000 * 257 + u64::from(*half),
    )
}

// A sheet translated with a list of filled rows, and its pairs run from a start on.
fn called(
    sheet: &[u8],
    filled: u16,
    out: &mut [u16],
    start: u64,
    file: &mut [u64],
    budget: u64,
    mark: &mut bool,
) -> Result<Ran, SheetError> {
    let n = translator::translate(sheet, filled, out)?;
    let end = 2 * (n % 10000) as usize;
    let pairs = out.get(..end).ok_or(SheetError {
        cause: Refusal::ShortOutput,
        step: None,
    })?;
    Ok(run(pairs, start, file, budget, mark))
}

// Whether an answer is the line's: the refusal's number, the step's index and the pairs executed, each 0 where there is
// none.
fn said(line: &[u8; 1110], answer: Result<Ran, SheetError>) -> bool {
    let (number, index, executed) = match answer {
        Ok(ran) => (number_of(ran.outcome), 0, ran.executed),
        Err(e) => (u8::from(e.cause), e.step.unwrap_or(0), 0),
    };
    u64::from(number) == field(line, 54, 2)
        && index == field(line, 57, 4)
        && executed == field(line, 62, 4)
}

// Whether the output and the file that are left are the line's.
fn left(line: &[u8; 1110], out: &[u16], file: [u64; 32]) -> bool {
    check(out) == field(line, 67, 16) && file == file_at(line, 597)
}

// Whether a case's sheet is answered as its line says, leaves the output and the file that it says, and the mark as it
// came: yes where the output's length is odd.
pub fn agrees(line: &[u8; 1110], sheet: &[u8]) -> bool {
    let mut out = [0x5555u16; 10304];
    let mut file = file_at(line, 84);
    let filled = half_at(line, 10);
    let start = field(line, 15, 16);
    let budget = field(line, 37, 16);
    let room = (field(line, 5, 4) % 10304) as usize;
    let words = (field(line, 32, 4) % 33) as usize;
    let before = room % 2 == 1;
    let mut mark = before;
    let answer = called(
        sheet,
        filled,
        &mut out[..room],
        start,
        &mut file[..words],
        budget,
        &mut mark,
    );
    said(line, answer) && left(line, &out, file) && mark == before
}
