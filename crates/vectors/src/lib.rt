// The vectors of `machine_test`: a line's record stepped, and the file held to what the line says.
#![tactic(auto)]

use effects::State;
use insn::{Insn, Mark, Operand, Refusal};
use replay::field;

// The mnemonic with which the line begins; where there is none, the number past the last, which has no meaning.
fn mnemonic_of(line: &[u8]) -> u16 {
    let names = names::table();
    (0..names::COUNT)
        .zip(names.chunks_exact(12))
        .find(|(_, name)| line.starts_with(name))
        .map_or(names::COUNT, |(m, _)| m)
}

// The register at place k: D0, D2 or D4; Q0, Q1 or Q2.
fn register(quad: bool, k: u8) -> Operand {
    if quad {
        Operand::Q(k % 4)
    } else {
        Operand::D(k % 4 * 2)
    }
}

// k/128, or from 65536 on its negative.
fn float(k: u64) -> f64 {
    let x = ((k % 65536) as u16) as f64 / 128.0;
    if k < 65536 { x } else { -x }
}

fn insn_of(mnemonic: u16, count: u8, first: Operand, second: Operand, third: Operand) -> Insn {
    Insn {
        mnemonic,
        mark: Mark::T1,
        address: 0,
        count,
        first,
        second,
        third,
    }
}

// The record of a shape: copy, shift, number, float; three registers with one out of range, of two sizes, with the count
// 2; or three registers, with m where the mark is to turn.
fn record(mnemonic: u16, shape: u8, v: u64, quad: bool) -> Insn {
    let a = register(quad, 0);
    let b = register(quad, 1);
    let c = register(quad, 2);
    let number = Operand::Imm(insn::signed::signed_of(v));
    match shape {
        b'c' => insn_of(mnemonic, 2, a, b, Operand::Absent),
        b's' => insn_of(mnemonic, 3, a, b, number),
        b'n' => insn_of(mnemonic, 2, a, number, Operand::Absent),
        b'f' => insn_of(mnemonic, 2, a, Operand::Float(float(v)), Operand::Absent),
        b'D' => insn_of(mnemonic, 3, Operand::D(32), b, c),
        b'Q' => insn_of(mnemonic, 3, a, register(!quad, 1), c),
        b'2' => insn_of(mnemonic, 2, a, b, c),
        _ => insn_of(mnemonic, 3, a, b, c),
    }
}

// What a letter puts in place k: a quadword, a doubleword, Q0 or a half of it, the number, the registers past the last, or
// nothing.
fn operand(c: u8, k: u8, v: u64) -> Operand {
    match c {
        b'q' => register(true, k),
        b'd' => register(false, k),
        b't' => Operand::Q(0),
        b'l' => Operand::D(0),
        b'h' => Operand::D(1),
        b'#' => Operand::Imm(insn::signed::signed_of(v)),
        b'X' => Operand::Q(16),
        b'x' => Operand::D(32),
        _ => Operand::Absent,
    }
}

// The record with some operands: their count, and a letter for each of the three.
fn lettered(mnemonic: u16, letters: [u8; 4], v: u64) -> Insn {
    let [count, a, b, c] = letters;
    insn_of(
        mnemonic,
        count % 16,
        operand(a, 0, v),
        operand(b, 1, v),
        operand(c, 2, v),
    )
}

// A file with the words in both halves of Q0, Q1 and Q2.
fn start(d: u64, n: u64, m: u64) -> [u64; 32] {
    let mut file = [0x5555_5555_5555_5555u64; 32];
    file[0] = d;
    file[1] = d;
    file[2] = n;
    file[3] = n;
    file[4] = m;
    file[5] = m;
    file
}

// A file with the line's quadwords in Q0, Q1 and Q2; the higher half of each stands first in the line.
fn start_of(line: &[u8; 153]) -> [u64; 32] {
    let mut file = start(0, 0, 0);
    file[0] = field(line, 37, 16);
    file[1] = field(line, 21, 16);
    file[2] = field(line, 70, 16);
    file[3] = field(line, 54, 16);
    file[4] = field(line, 103, 16);
    file[5] = field(line, 87, 16);
    file
}

// Whether a step on a state comes out as it is due, and leaves the state `after`.
fn steps(before: State, i: Insn, due: Result<(), Refusal>, after: State) -> bool {
    match machine::step_insn(before, i) {
        Ok(left) => due.is_ok() && left == after,
        Err(f) => due == Err(f) && before == after,
    }
}

// The same from a mark that is no, which the step turns or does not; and one that is yes stays.
fn steps_marked(
    before: [u64; 32],
    i: Insn,
    due: Result<(), Refusal>,
    after: [u64; 32],
    turned: bool,
) -> bool {
    let with = |file, mark| State { file, mark };
    steps(with(before, false), i, due, with(after, turned))
        && steps(with(before, true), i, due, with(after, true))
}

// Whether the line's vector passes, on doublewords or on quadwords. The shapes before the small letters are refused.
pub fn passes(line: &[u8; 100], quad: bool) -> bool {
    let shape = line[13];
    let i = record(mnemonic_of(line), shape, field(line, 15, 16), quad);
    let file = start(
        field(line, 32, 16),
        field(line, 49, 16),
        field(line, 66, 16),
    );
    if shape < b'a' {
        return steps_marked(file, i, Err(Refusal::NoMeaning), file, false);
    }
    let result = field(line, 83, 16);
    let mut after = file;
    after[0] = result;
    if quad {
        after[1] = result;
    }
    steps_marked(file, i, Ok(()), after, shape == b'm')
}

// Whether the line's vector passes on registers of different lengths: after + the mark turns, after ! it is refused.
pub fn passes_unlike(line: &[u8; 153], sign: u8) -> bool {
    let letters = [line[13], line[14], line[15], line[16]];
    let i = lettered(mnemonic_of(line), letters, field(line, 18, 2));
    let file = start_of(line);
    let mut after = file;
    after[0] = field(line, 136, 16);
    after[1] = field(line, 120, 16);
    let due = if sign == b'!' {
        Err(Refusal::NoMeaning)
    } else {
        Ok(())
    };
    steps_marked(file, i, due, after, sign == b'+')
}

// Whether a record has a meaning.
fn means(i: Insn) -> bool {
    let state = State {
        file: start(0, 1, 2),
        mark: false,
    };
    machine::step_insn(state, i) != Err(Refusal::NoMeaning)
}

// Whether a mnemonic has a meaning with the operands of vaddl, vaddw, vaddhn, vmovl, vshll or vshrn.
fn has_unlike_meaning(mnemonic: u16) -> bool {
    [*b"3qdd", *b"3qqd", *b"3dqq", *b"2qd-", *b"3qd#", *b"3dq#"]
        .iter()
        .any(|letters| means(lettered(mnemonic, *letters, 1)))
}

// Whether a mnemonic has a meaning with some shape of operands.
fn has_meaning(mnemonic: u16) -> bool {
    b"rcsnf"
        .iter()
        .any(|shape| means(record(mnemonic, *shape, 64, false)))
        || has_unlike_meaning(mnemonic)
}

// How many mnemonics have a meaning.
pub fn count_meanings() -> u64 {
    (0..400).filter(|m| has_meaning(*m)).count() as u64
}
