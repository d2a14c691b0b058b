// What an operation leaves in a doubleword of its target.
#![tactic(auto)]

ghost use Rattle.std.specs.Prelude.{◌≡◌};
ghost use Rattle.operations.specs.Operations.{bitwise, with_constant, result_of};

use insn::Width;
use lanes::LaneOp;

// A bitwise operation, by its instruction's name.
#[derive(Clone, Copy)]
pub enum BitOp {
    And,
    Orr,
    Eor,
    Bic,
    Orn,
    Mov,
    Bsl,
    Bit,
    Bif,
}

// What a modified immediate does to its target, by its instruction's name.
#[derive(Clone, Copy)]
pub enum ConstantOp {
    Mov,
    Mvn,
    Orr,
    Bic,
}

// An operation: at each lane, bit by bit, or with a constant of 64 bits.
#[derive(Clone, Copy)]
pub enum Operation {
    Lanes(LaneOp, Width),
    Bits(BitOp),
    Constant(ConstantOp, u64),
}

fn bits(op: BitOp, d: u64, n: u64, m: u64) -> u64
    ensures { result ≡ bitwise 64 op d n m }
{
    match op {
        BitOp::And => n & m,
        BitOp::Orr => n | m,
        BitOp::Eor => n ^ m,
        BitOp::Bic => n & !m,
        BitOp::Orn => n | !m,
        BitOp::Mov => n,
        BitOp::Bsl => (n & d) | (m & !d),
        BitOp::Bit => (n & m) | (d & !m),
        BitOp::Bif => (d & m) | (n & !m),
    }
}

fn constant(op: ConstantOp, p: u64, d: u64) -> u64
    ensures { result ≡ with_constant 64 op p d }
{
    match op {
        ConstantOp::Mov => p,
        ConstantOp::Mvn => !p,
        ConstantOp::Orr => d | p,
        ConstantOp::Bic => d & !p,
    }
}

// The doubleword that an operation leaves: d the old target, n and m the sources.
#[tactic(auto, unfolding(crate::specs::Operations::result_of))]
pub fn value(op: Operation, d: u64, n: u64, m: u64) -> u64
    ensures { result ≡ result_of 64 op d n m }
{
    match op {
        Operation::Lanes(o, w) => lanes::lanes(o, w, d, n, m),
        Operation::Bits(o) => bits(o, d, n, m),
        Operation::Constant(o, p) => constant(o, p, d),
    }
}
