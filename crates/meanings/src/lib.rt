// The meaning of a record: an operation and its registers.
#![tactic(auto)]

ghost use Rattle.std.specs.Prelude.{◌≡◌};
ghost use Rattle.insn.specs.Answers.{answer};
ghost use Rattle.fields.specs.Registers.{vec_bits};
ghost use Rattle.meanings.specs.Answers.{gathered_answer, meaning_answer};
ghost use Rattle.meanings.specs.Meaning.{gathered, count_of, shifting, repeated, whole_pattern, float_pattern, on, on_unlike, meaning_in, meaning_of};
ghost use Rattle.forms.specs.declared.Form.TheVariants.{Shift, Number, Float};

use double_lanes::{DoubleOp, LongOp, NarrowOp, lengths_of};
use floats::float_imm8;
use forms::{Direction, Form};
use immediates::expand_imm;
use insn::{Insn, Operand, Refusal, Width};
use lanes::LaneOp;
use named_forms::form_of;
use operations::{BitOp, ConstantOp, Operation};
use tables::lengths::{Lengths, alike};

// Whether the registers are quadwords, and the numbers of their (lower) doublewords: the target's and the sources'.
#[derive(Clone, Copy)]
pub struct Registers {
    pub quad: bool,
    pub d: u8,
    pub n: u8,
    pub m: u8,
}

// The numbers of three registers' (lower) doublewords: the target's and the sources'.
#[derive(Clone, Copy)]
pub struct Numbers {
    pub d: u8,
    pub n: u8,
    pub m: u8,
}

// What a record does: an operation on registers of one length, or of its own lengths.
#[derive(Clone, Copy)]
pub enum Action {
    Does(Operation, Registers),
    Doubles(DoubleOp, Width, Numbers),
}

// How many operands a form has.
fn count(form: Form) -> u8
    ensures { result ≡ count_of form }
{
    match form {
        Form::Lanes(_, _) | Form::Bits(_) | Form::Shift(_, _) | Form::Double(_, _) => 3,
        Form::Copy | Form::Extend(_, _) | Form::Number(_, _) | Form::Float => 2,
        Form::Nothing => 0,
    }
}

// Three operands as registers: which of them are quadwords, and their numbers.
#[tactic(auto, unfolding(crate::specs::Meaning::gathered))]
fn gather(a: Operand, b: Operand, c: Operand) -> Result<(Lengths, Numbers), Refusal>
    ensures { gathered_answer result ≡ gathered (vec_bits a) (vec_bits b) (vec_bits c) }
{
    let (quad, d) = fields::vec_bits(a).or(Err(Refusal::NoMeaning))?;
    let (quad_n, n) = fields::vec_bits(b).or(Err(Refusal::NoMeaning))?;
    let (quad_m, m) = fields::vec_bits(c).or(Err(Refusal::NoMeaning))?;
    Ok((
        Lengths {
            d: quad,
            n: quad_n,
            m: quad_m,
        },
        Numbers { d, n, m },
    ))
}

// An operation on registers of one length.
#[tactic(auto, unfolding(crate::specs::Meaning::acting))]
fn on_registers(op: Operation, a: Operand, b: Operand, c: Operand) -> Result<Action, Refusal>
    ensures { meaning_answer result ≡ on op a b c }
{
    let (l, r) = gather(a, b, c)?;
    if l != alike(l.d) {
        return Err(Refusal::NoMeaning);
    }
    Ok(Action::Does(
        op,
        Registers {
            quad: l.d,
            d: r.d,
            n: r.n,
            m: r.m,
        },
    ))
}

// An operation on registers of its own lengths.
#[tactic(auto, unfolding(crate::specs::Meaning::doubling))]
fn on_unlike(op: DoubleOp, w: Width, a: Operand, b: Operand, c: Operand) -> Result<Action, Refusal>
    ensures { meaning_answer result ≡ on_unlike op w a b c }
{
    let (l, r) = gather(a, b, c)?;
    if l != lengths_of(op) {
        return Err(Refusal::NoMeaning);
    }
    Ok(Action::Doubles(op, w, r))
}

// The 64 bits of a whole number.
#[tactic(auto, unfolding(crate::specs::Meaning::whole_pattern))]
fn whole_pattern(o: Operand) -> Result<u64, Refusal>
    ensures { answer result ≡ whole_pattern o }
{
    match o {
        Operand::Imm(v) => Ok(insn::signed::pattern_of(v)),
        _ => Err(Refusal::NoMeaning),
    }
}

// The single-precision pattern of a float that a pair carries, twice.
#[tactic(auto, unfolding(crate::specs::Meaning::float_pattern, immediates::specs::Modified::constant_at, immediates::specs::Modified::element, immediates::specs::Modified::pattern_in))]
fn float_pattern(o: Operand) -> Result<u64, Refusal>
    ensures { answer result ≡ float_pattern o }
{
    match o {
        Operand::Float(x) => {
            let imm8 = float_imm8(x).ok_or(Refusal::NoMeaning)?;
            expand_imm(0, 15, imm8)
        }
        _ => Err(Refusal::NoMeaning),
    }
}

// A shift of b by k places.
fn shifted_by(way: Direction, w: Width, k: u32, a: Operand, b: Operand) -> Result<Action, Refusal>
    ensures { meaning_answer result ≡ shifting way w k a b }
{
    match way {
        Direction::Left => on_registers(Operation::Lanes(LaneOp::Shl(k), w), a, b, b),
        Direction::Right(s) => on_registers(Operation::Lanes(LaneOp::Shr(s, k), w), a, b, b),
        Direction::Long(s) => on_unlike(DoubleOp::Long(LongOp::Shl(k), s), w, a, b, b),
        Direction::Narrow => on_unlike(DoubleOp::Narrow(NarrowOp::Shr(k)), w, a, b, b),
    }
}

// The lowest bits of p, as many as the width has, in every element of 64 bits.
#[tactic(auto, unfolding(crate::specs::Meaning::repeated))]
fn repeat(w: Width, p: u64) -> u64
    ensures { result ≡ repeated w p }
{
    match w {
        Width::B8 => p % 0x100 * 0x101_0101_0101_0101,
        Width::B16 => p % 0x1_0000 * 0x1_0001_0001_0001,
        Width::B32 => p % 0x1_0000_0000 * 0x1_0000_0001,
        Width::B64 => p,
    }
}

// A shift of b by the amount c.
#[tactic(auto, unfolding(crate::specs::Meaning::meaning_in))]
fn shifted(way: Direction, w: Width, a: Operand, b: Operand, c: Operand) -> Result<Action, Refusal>
    ensures { meaning_answer result ≡ meaning_in (Shift way w) a b c }
{
    let k = whole_pattern(c)?;
    if 64 < k {
        return Err(Refusal::NoMeaning);
    }
    shifted_by(way, w, k as u32, a, b)
}

// What the number b does to a.
#[tactic(auto, unfolding(crate::specs::Meaning::meaning_in))]
fn with_number(op: ConstantOp, w: Width, a: Operand, b: Operand) -> Result<Action, Refusal>
    ensures { meaning_answer result ≡ meaning_in (Number op w) a b b }
{
    let p = whole_pattern(b)?;
    on_registers(Operation::Constant(op, repeat(w, p)), a, a, a)
}

// The target a set to the float b.
#[tactic(auto, unfolding(crate::specs::Meaning::meaning_in))]
fn with_float(a: Operand, b: Operand) -> Result<Action, Refusal>
    ensures { meaning_answer result ≡ meaning_in Float a b b }
{
    let p = float_pattern(b)?;
    on_registers(Operation::Constant(ConstantOp::Mov, p), a, a, a)
}

// The meaning of a form with its operands.
#[tactic(auto, unfolding(crate::specs::Meaning::meaning_in))]
fn meaning_in(form: Form, a: Operand, b: Operand, c: Operand) -> Result<Action, Refusal>
    ensures { meaning_answer result ≡ meaning_in form a b c }
{
    match form {
        Form::Lanes(op, w) => on_registers(Operation::Lanes(op, w), a, b, c),
        Form::Bits(op) => on_registers(Operation::Bits(op), a, b, c),
        Form::Copy => on_registers(Operation::Bits(BitOp::Mov), a, b, b),
        Form::Shift(way, w) => shifted(way, w, a, b, c),
        Form::Double(op, w) => on_unlike(op, w, a, b, c),
        Form::Extend(s, w) => on_unlike(DoubleOp::Long(LongOp::Mov, s), w, a, b, b),
        Form::Number(op, w) => with_number(op, w, a, b),
        Form::Float => with_float(a, b),
        Form::Nothing => Err(Refusal::NoMeaning),
    }
}

// The meaning of a record.
#[tactic(auto, unfolding(crate::specs::Meaning::meaning_of))]
pub fn meaning_of(i: Insn) -> Result<Action, Refusal>
    ensures { meaning_answer result ≡ meaning_of i }
{
    let form = form_of(i.mnemonic);
    if i.count != count(form) {
        return Err(Refusal::NoMeaning);
    }
    meaning_in(form, i.first, i.second, i.third)
}
