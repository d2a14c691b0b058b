// What `loading` writes: the pair count and rows 0 to 13, or the refusal, with the row that a 16 is about; and the mark
// where it is yes.
#![tactic(auto)]

use effects::State;
use insn::Refusal;
use runs::Ran;
use steps::faults::SheetError;
use unfilled::unfilled_row;

// Where everything is written.
const STDOUT: i32 = 1;

// Writes a text.
pub fn put(text: &[u8]) {
    io::write_all(STDOUT, text);
}

fn put_number(label: &[u8], n: u64) {
    put(label);
    io::print_decimal(STDOUT, n);
}

// 16 hexadecimal digits.
fn put_hex(v: u64) {
    io::print_hex(STDOUT, v, 16);
}

// Rows 0 to 13, the high doubleword of each first.
fn put_rows(file: &[u64; 32]) {
    for (r, row) in file[..28].chunks_exact(2).enumerate() {
        put_number(b"row ", r as u64);
        put(b" ");
        put_hex(row[1]);
        put_hex(row[0]);
        put(b"\n");
    }
}

fn put_refusal(f: Refusal) {
    put_number(b"refused ", u64::from(u8::from(f)));
}

fn put_run(ran: Ran, file: &[u64; 32]) {
    match ran.outcome {
        Ok(()) => {
            put_number(b"pairs ", ran.executed);
            put(b"\n");
            put_rows(file);
        }
        Err(f) => {
            put_refusal(f);
            put_number(b" after pairs ", ran.executed);
            put(b"\n");
        }
    }
}

// The step that a refusal is about, and the row that nobody filled, where there is one.
fn put_step(i: u64, sheet: &[u8], filled: u16) {
    put_number(b" at step ", i);
    if let Some(r) = unfilled_row(sheet, filled) {
        put_number(b": row ", u64::from(r));
        put(b" was not filled");
    }
}

fn put_error(e: SheetError, sheet: &[u8], filled: u16) {
    put_refusal(e.cause);
    if let Some(i) = e.step {
        put_step(i, sheet, filled);
    }
    put(b"\n");
}

// The answer of a sheet's evaluation with a list of filled rows, and the state that it leaves: the mark is yes where a lane
// was moved to an end of its range.
pub fn put_answer(answer: Result<Ran, SheetError>, sheet: &[u8], filled: u16, state: &State) {
    match answer {
        Ok(ran) => put_run(ran, &state.file),
        Err(e) => put_error(e, sheet, filled),
    }
    if state.mark {
        put(b"saturated\n");
    }
}
