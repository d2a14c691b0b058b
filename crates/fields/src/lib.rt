// The fields of a pair: register numbers, and the two halfwords put together from their fields.
#![tactic(auto)]

ghost use Rattle.std.specs.Prelude.{◌≡◌, ◌%◌};
ghost use Rattle.fields.specs.Answers.{bits_answer};
ghost use Rattle.fields.specs.Halfwords.{first, second};
ghost use Rattle.fields.specs.Registers.{dnum_of, vec_bits};

use insn::{Operand, Refusal};

// The doubleword register number hi:lo, from bit 0 of hi and bits 3..0 of lo.
pub fn dnum(hi: u16, lo: u16) -> u8
    ensures { result ≡ dnum_of hi lo }
{
    (hi % 2 * 16 + lo % 16) as u8
}

// Whether a register is a quadword, and the number of its (lower) doubleword, for D0 to D31 and Q0 to Q15.
#[tactic(auto, unfolding(crate::specs::Registers::vec_bits))]
pub fn vec_bits(reg: Operand) -> Result<(bool, u8), Refusal>
    ensures { bits_answer result ≡ vec_bits reg }
{
    match reg {
        Operand::D(n) if n < 32 => Ok((false, n)),
        Operand::Q(n) if n < 16 => Ok((true, 2 * n)),
        _ => Err(Refusal::WrongForm),
    }
}

// The first halfword of a pair, from the low bits of its fields.
pub fn first_halfword(u: u8, a: u8, d: u8, low: u8) -> u16
    ensures { result ≡ first (u % 2) (a % 2) (d % 2) (low % 64) }
{
    let upper = 0xef + u % 2 * 0x10;
    let lower = a % 2 * 0x80 + d % 2 * 0x40 + low % 64;
    upper as u16 * 0x100 + lower as u16
}

// The second halfword of a pair, from the low bits of its fields.
pub fn second_halfword(vd: u8, op: u8, b7: u8, b6: u8, b5: u8, b4: u8, low: u8) -> u16
    ensures { result ≡ second (vd % 16) (op % 16) (b7 % 2) (b6 % 2) (b5 % 2) (b4 % 2) (low % 16) }
{
    let upper = vd % 16 * 0x10 + op % 16;
    let lower = b7 % 2 * 0x80 + b6 % 2 * 0x40 + b5 % 2 * 0x20 + b4 % 2 * 0x10 + low % 16;
    upper as u16 * 0x100 + lower as u16
}
