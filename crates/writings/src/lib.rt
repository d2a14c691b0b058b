// What a writing answers, and what the places of a record hold, as a mnemonic's form asks.
#![tactic(auto)]

ghost use Rattle.std.specs.Prelude.{◌≡◌};
ghost use Rattle.writings.specs.Forms.{is_quad, is_number, register_in, all_three};
ghost use Rattle.insn.specs.Answers.{answer};
ghost use Rattle.writings.specs.Own.{fields_answer};

use insn::{Operand, Refusal};
use tables::lengths::Lengths;

// What is to be written: how many operands, and the one at each place.
#[derive(Clone, Copy)]
pub struct Operands {
    pub count: u8,
    pub first: Operand,
    pub second: Operand,
    pub third: Operand,
}

// Whether an operand is a quadword register.
pub fn is_quad(o: Operand) -> bool
    ensures { result ≡ is_quad o }
{
    matches!(o, Operand::Q(_))
}

// Whether an operand is a whole number.
pub fn is_number(o: Operand) -> bool
    ensures { result ≡ is_number o }
{
    matches!(o, Operand::Imm(_))
}

// The number of a register where the form asks for a quadword, or for a doubleword.
#[tactic(auto, unfolding(crate::specs::Forms::register_in))]
pub fn register(quad: bool, reg: Operand) -> Result<u8, Refusal>
    ensures { answer result ≡ register_in quad reg }
{
    let (is_quad, number) = fields::vec_bits(reg)?;
    if is_quad == quad {
        Ok(number)
    } else {
        Err(Refusal::WrongForm)
    }
}

// The numbers of three registers of given lengths; the first that is refused refuses them all.
#[tactic(auto, unfolding(crate::specs::Forms::all_three))]
pub fn registers(quad: Lengths, o: Operands) -> Result<(u8, u8, u8), Refusal>
    ensures { fields_answer result ≡ all_three (register_in quad.d o.first) (register_in quad.n o.second) (register_in quad.m o.third) }
{
    Ok((
        register(quad.d, o.first)?,
        register(quad.n, o.second)?,
        register(quad.m, o.third)?,
    ))
}
