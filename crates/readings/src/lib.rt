// Records put together from operands, and registers from their numbers, of which quad form refuses the odd ones.
#![tactic(auto)]

ghost use Rattle.std.specs.Prelude.{◌≡◌};
ghost use Rattle.fields.specs.Registers.{vec_of};
ghost use Rattle.insn.specs.Answers.{answer};
ghost use Rattle.readings.specs.Operands.{insn, two, three};

use insn::{Insn, Mark, Operand, Refusal};

// The register of a number, which in quad form is that of its lower doubleword.
pub fn register(quad: bool, d: u8) -> Result<Operand, Refusal>
    ensures { answer result ≡ vec_of quad d }
{
    match (quad, d % 2) {
        (false, _) => Ok(Operand::D(d)),
        (true, 0) => Ok(Operand::Q(d / 2)),
        (true, _) => Err(Refusal::OddQuad),
    }
}

// A record of its fields.
fn record(
    mnemonic: u16,
    mark: Mark,
    address: u32,
    count: u8,
    a: Operand,
    b: Operand,
    c: Operand,
) -> Insn
    ensures { result ≡ insn mnemonic mark address count a b c }
{
    Insn {
        mnemonic,
        mark,
        address,
        count,
        first: a,
        second: b,
        third: c,
    }
}

// The record of a mnemonic and two operands, or the first refusal among them.
#[tactic(auto, unfolding(crate::specs::Operands::two))]
pub fn two(
    mnemonic: u16,
    address: u32,
    a: Result<Operand, Refusal>,
    b: Result<Operand, Refusal>,
) -> Result<Insn, Refusal>
    ensures { answer result ≡ two mnemonic Mark.T1 address (answer a) (answer b) }
{
    Ok(record(mnemonic, Mark::T1, address, 2, a?, b?, Operand::Absent))
}

// The record of a mnemonic and three operands, or the first refusal among them.
#[tactic(auto, unfolding(crate::specs::Operands::three))]
pub fn three(
    mnemonic: u16,
    mark: Mark,
    address: u32,
    a: Result<Operand, Refusal>,
    b: Result<Operand, Refusal>,
    c: Result<Operand, Refusal>,
) -> Result<Insn, Refusal>
    ensures { answer result ≡ three mnemonic mark address (answer a) (answer b) (answer c) }
{
    Ok(record(mnemonic, mark, address, 3, a?, b?, c?))
}
