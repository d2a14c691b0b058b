// The records that steps are written as.
ghost use Rattle.std.specs.Prelude.{◌≡◌, [], ◌∷◌, ◌≢◌, ◌+◌, ◌<◌, ◌≤◌, eqb, pos};
ghost use Rattle.laws.specs.Choice.{choose};
ghost use Rattle.insn.specs.declared.Mark.TheVariants.{T1};
ghost use Rattle.insn.specs.declared.Operand.TheVariants.{D, Q, Imm, Absent};
ghost use Rattle.readings.specs.Operands.{insn as record_of};
ghost use Rattle.recipes.specs.Pairs.{pairs_by, two_of, three_of};

use insn::{Insn, Mark, Operand};
use names::{VMOV, VORR};
use steps::lawful::LawfulStep;

// Mnemonic numbers; a name with lanes stands here for its first width, and the others follow.
const VAND: u16 = 10;

const VORN: u16 = 13;

const VCGT_S: u16 = 21;

const VMAX_S: u16 = 43;

const VMIN_S: u16 = 46;

const VADD: u16 = 55;

const VMUL: u16 = 65;

const VEOR: u16 = 100;

const VBSL: u16 = 101;

const VBIF: u16 = 103;

const VCGT_U: u16 = 111;

const VMAX_U: u16 = 133;

const VMIN_U: u16 = 136;

const VSUB: u16 = 145;

const VSHR_S: u16 = 173;

const VSHL: u16 = 189;

const VSHR_U: u16 = 210;

// A mnemonic with two operands, and one with three.
fn two(m: u16, x: Operand, y: Operand) -> Insn
    ensures { result ≡ record_of m T1 0 2 x y Absent }
{
    Insn {
        mnemonic: m,
        mark: Mark::T1,
        address: 0,
        count: 2,
        first: x,
        second: y,
        third: Operand::Absent,
    }
}

fn three(m: u16, x: Operand, y: Operand, z: Operand) -> Insn
    ensures { result ≡ record_of m T1 0 3 x y z }
{
    Insn {
        mnemonic: m,
        mark: Mark::T1,
        address: 0,
        count: 3,
        first: x,
        second: y,
        third: z,
    }
}

fn immediate(n: u32) -> Operand
    ensures { result ≡ Imm (pos n) }
{
    Operand::Imm(n as i64)
}

// The high word of D28 joined to a low word, by the mask in D30.
pub fn join_words(r: u8) -> Insn
    ensures { result ≡ three_of "vbif" (D r) (D 28) (D 30) }
{
    three(VBIF, Operand::D(r), Operand::D(28), Operand::D(30))
}

// A copy of a row.
pub fn copy(t: u8, a: u8) -> Insn
    ensures { result ≡ two_of "vmov" (Q t) (Q a) }
{
    two(VMOV, Operand::Q(t), Operand::Q(a))
}

// A mnemonic with three rows.
fn rows(m: u16, t: u8, a: u8, b: u8) -> Insn
    ensures { result ≡ record_of m T1 0 3 (Q t) (Q a) (Q b) }
{
    three(m, Operand::Q(t), Operand::Q(a), Operand::Q(b))
}

// A row inverted, where Q14 is 0.
pub fn invert(t: u8, a: u8) -> Insn
    ensures { result ≡ three_of "vorn" (Q t) (Q 14) (Q a) }
{
    rows(VORN, t, 14, a)
}

// By bit one row or the other, as Q14 picks, to Q14.
pub fn pick(a: u8, b: u8) -> Insn
    ensures { result ≡ three_of "vbsl" (Q 14) (Q a) (Q b) }
{
    rows(VBSL, 14, a, b)
}

// The mnemonic of a sign, 1 for signed, and of a width code.
fn by_sign(sign: u8, width: u8, signed: u16, unsigned: u16) -> u16
    requires { (signed < 256) × (unsigned < 256) }
    ensures { result ≡ choose (eqb sign 1) signed unsigned + width }
{
    if sign == 1 {
        signed + width as u16
    } else {
        unsigned + width as u16
    }
}

// The mnemonic of kinds 2 to 7: sum, difference, product; and, or, exclusive or.
fn joining(s: LawfulStep) -> u16
    requires { (2 ≤ s.step.kind) × (s.step.kind < 8) }
    ensures { (record_of result T1 0 3 (Q s.step.target) (Q s.step.a) (Q s.step.b) ∷ []) ≡ pairs_by s.step.kind s.step }
{
    let s = s.step;
    let k = s.kind;
    if k < 5 {
        match k {
            2 => VADD + s.width as u16,
            3 => VSUB + s.width as u16,
            _ => VMUL + s.width as u16,
        }
    } else {
        match k {
            5 => VAND,
            6 => VORR,
            _ => VEOR,
        }
    }
}

// Kinds 9 and 10: left, and right, which is a copy for amount 0.
fn shift(s: LawfulStep) -> Insn
    requires { (9 ≤ s.step.kind) × (s.step.kind < 11) }
    ensures { (result ∷ []) ≡ pairs_by s.step.kind s.step }
{
    let s = s.step;
    let t = Operand::Q(s.target);
    let a = Operand::Q(s.a);
    let amount = immediate(s.amount as u32);
    if s.kind == 9 {
        return three(VSHL + s.width as u16, t, a, amount);
    }
    if s.amount == 0 {
        return copy(s.target, s.a);
    }
    three(by_sign(s.sign, s.width, VSHR_S, VSHR_U), t, a, amount)
}

// Kinds 11 to 13: greatest, least, and the mask of a < b, which is b > a.
fn ordering(s: LawfulStep) -> Insn
    requires { (11 ≤ s.step.kind) × (s.step.kind < 14) }
    ensures { (result ∷ []) ≡ pairs_by s.step.kind s.step }
{
    let s = s.step;
    let k = s.kind;
    match k {
        11 => rows(by_sign(s.sign, s.width, VMAX_S, VMAX_U), s.target, s.a, s.b),
        12 => rows(by_sign(s.sign, s.width, VMIN_S, VMIN_U), s.target, s.a, s.b),
        _ => rows(by_sign(s.sign, s.width, VCGT_S, VCGT_U), s.target, s.b, s.a),
    }
}

// The record of a step that is one pair.
pub fn single(s: LawfulStep) -> Insn
    requires { (s.step.kind ≢ 0) × ((s.step.kind ≢ 8) × (s.step.kind < 14)) }
    ensures { (result ∷ []) ≡ pairs_by s.step.kind s.step }
{
    let k = s.step.kind;
    if k == 1 {
        copy(s.step.target, s.step.a)
    } else if k < 8 {
        rows(joining(s), s.step.target, s.step.a, s.step.b)
    } else if k < 11 {
        shift(s)
    } else {
        ordering(s)
    }
}
