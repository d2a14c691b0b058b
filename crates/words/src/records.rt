// The record that ten words stand for.
ghost use Rattle.std.specs.Prelude.{◌≡◌, ◌+◌, ◌<◌, eqb, get_or};
ghost use Rattle.std.specs.Float.Ieee.{of_bits};
ghost use Rattle.std.specs.Float.{binary64};
ghost use Rattle.laws.specs.Choice.{choose};
ghost use Rattle.words.specs.Records.{operand_word, record_of};

use insn::{Insn, Mark, Operand};

fn mark_of(w: u64) -> Mark
    ensures { result ≡ choose (eqb w 2) Mark.T2 Mark.T1 }
{
    if w == 2 { Mark::T2 } else { Mark::T1 }
}

// The float of 64 bits; every pattern above infinity's is a not-a-number's.
fn float_of(w: u64) -> f64
    ensures { result ≡ of_bits binary64 w }
{
    if 0x7ff0_0000_0000_0000 < w % 0x8000_0000_0000_0000 {
        return f64::NAN;
    }
    f64::from_bits(w)
}

// The operand of a kind and a value.
#[tactic(auto, unfolding(crate::specs::Records::operand_word))]
fn operand_of(kind: u64, value: u64) -> Operand
    ensures { result ≡ operand_word kind value }
{
    match (kind, u8::try_from(value)) {
        (0, _) => Operand::Absent,
        (1, Ok(n)) => Operand::D(n),
        (2, Ok(n)) => Operand::Q(n),
        (3, Ok(n)) => Operand::S(n),
        (4, _) => Operand::Imm(insn::signed::signed_of(value)),
        (5, _) => Operand::Float(float_of(value)),
        _ => Operand::Other,
    }
}

// The operand whose kind is word k, and whose value the next.
fn operand_at(w: &[u64; 10], k: usize) -> Operand
    requires { k < 9 }
    ensures { result ≡ operand_word (get_or w.now k 0) (get_or w.now (k + 1) 0) }
{
    operand_of(w[k], w[k + 1])
}

// The record of ten words.
pub fn record_of(w: &[u64; 10]) -> Insn
    ensures { result ≡ record_of w.now }
{
    Insn {
        mnemonic: u16::try_from(w[0]).unwrap_or(u16::MAX),
        mark: mark_of(w[1]),
        address: (w[2] % 0x1_0000_0000) as u32,
        count: u8::try_from(w[3]).unwrap_or(u8::MAX),
        first: operand_at(w, 4),
        second: operand_at(w, 6),
        third: operand_at(w, 8),
    }
}
