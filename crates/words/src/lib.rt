// A record as the ten words that C programs pass.
#![tactic(auto)]

ghost use Rattle.std.specs.Prelude.{◌≡◌};
ghost use Rattle.std.specs.Float.Ieee.{to_bits};
ghost use Rattle.std.specs.Float.{binary64};
ghost use Rattle.words.specs.Words.{mark_word, kind_word, value_word, record_words};

use insn::{Insn, Mark, Operand};

pub mod records;

fn mark_word(mark: Mark) -> u64
    ensures { result ≡ mark_word mark }
{
    match mark {
        Mark::T1 => 1,
        Mark::T2 => 2,
    }
}

// The bits of a float; of a not-a-number, those of the quiet one.
fn float_word(x: f64) -> u64
    ensures { result ≡ to_bits binary64 x }
{
    if x.is_nan() {
        0x7ff8_0000_0000_0000
    } else {
        x.to_bits()
    }
}

// What an operand is, as a number.
fn kind_word(o: Operand) -> u64
    ensures { result ≡ kind_word o }
{
    match o {
        Operand::Absent => 0,
        Operand::D(_) => 1,
        Operand::Q(_) => 2,
        Operand::S(_) => 3,
        Operand::Imm(_) => 4,
        Operand::Float(_) => 5,
        Operand::Other => 6,
    }
}

// What an operand holds, as a number.
fn value_word(o: Operand) -> u64
    ensures { result ≡ value_word o }
{
    match o {
        Operand::D(n) | Operand::Q(n) | Operand::S(n) => u64::from(n),
        Operand::Imm(v) => insn::signed::pattern_of(v),
        Operand::Float(x) => float_word(x),
        Operand::Other | Operand::Absent => 0,
    }
}

// The record's words.
pub fn record_words(i: Insn) -> [u64; 10]
    ensures { result ≡ record_words i }
{
    [
        u64::from(i.mnemonic),
        mark_word(i.mark),
        u64::from(i.address),
        u64::from(i.count),
        kind_word(i.first),
        value_word(i.first),
        kind_word(i.second),
        value_word(i.second),
        kind_word(i.third),
        value_word(i.third),
    ]
}
