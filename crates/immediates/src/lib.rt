// Modified immediates: what op, cmode and imm8 stand for.
#![tactic(auto)]

ghost use Rattle.std.specs.Prelude.{◌≡◌, ◌<◌, ◌^◌};
ghost use Rattle.insn.specs.Answers.{answer};
ghost use Rattle.immediates.specs.Modified.{bytes_of, constant_at, element, expand_imm, modimm_operand, needs_nonzero, zero_refused};

use floats::{float_bits, imm_float};
use insn::{Operand, Refusal, signed};

// An element times one of these fills 64 bits with it.
const IN_WORDS: u64 = 0x1_0000_0001;

const IN_HALFWORDS: u64 = 0x1_0001_0001_0001;

const IN_BYTES: u64 = 0x101_0101_0101_0101;

// Whether a row refuses a zero imm8.
#[tactic(auto, unfolding(crate::specs::Modified::needs_nonzero))]
pub fn modimm_needs_nonzero(cmode: u8) -> bool
    ensures { result ≡ needs_nonzero cmode }
{
    matches!(cmode / 2, 1..=3 | 5 | 6)
}

// A zero imm8 in a row that refuses it.
pub fn is_zero_refused(cmode: u8, imm8: u8) -> bool
    ensures { result ≡ zero_refused cmode imm8 }
{
    imm8 == 0 && modimm_needs_nonzero(cmode)
}

// Each bit of an immediate as a byte.
#[tactic(auto, using(crate::proofs::Expansions::bytes))]
fn bytes_of(imm8: u8) -> u64
    ensures { result ≡ bytes_of 8 imm8 }
{
    let b = imm8 as u64;
    255 * (b % 2
        + b / 2 % 2 * 0x100
        + b / 4 % 2 * 0x1_0000
        + b / 8 % 2 * 0x100_0000
        + b / 16 % 2 * 0x1_0000_0000
        + b / 32 % 2 * 0x100_0000_0000
        + b / 64 % 2 * 0x1_0000_0000_0000
        + b / 128 % 2 * 0x100_0000_0000_0000)
}

// The element of a row with op 0, before it is repeated.
#[tactic(auto, unfolding(crate::specs::Modified::constant_at, crate::specs::Modified::element))]
fn element_of(cmode: u8, imm8: u8) -> u64
    ensures { (result ≡ element (constant_at 0 cmode) imm8) × (result < 2 ^ 32) }
{
    let b = imm8 as u64;
    match cmode {
        0 | 1 | 8 | 9 | 14 => b,
        2 | 3 | 10 | 11 => b * 0x100,
        4 | 5 => b * 0x1_0000,
        6 | 7 => b * 0x100_0000,
        12 => b * 0x100 + 0xff,
        13 => b * 0x1_0000 + 0xffff,
        15 => float_bits(imm8),
        _ => 0,
    }
}

// The 64-bit pattern of a row with op 0.
fn expand_plain(cmode: u8, imm8: u8) -> Result<u64, Refusal>
    ensures { answer result ≡ expand_imm 0 cmode imm8 }
{
    if 15 < cmode {
        return Err(Refusal::BlankCell);
    }
    let e = element_of(cmode, imm8);
    if cmode == 14 {
        return Ok(e * IN_BYTES);
    }
    if cmode / 4 == 2 {
        return Ok(e * IN_HALFWORDS);
    }
    Ok(e * IN_WORDS)
}

// The 64-bit pattern of an immediate. The rows below cmode 14 are the same for both values of op.
pub fn expand_imm(op: u8, cmode: u8, imm8: u8) -> Result<u64, Refusal>
    ensures { answer result ≡ expand_imm op cmode imm8 }
{
    match (op, cmode) {
        (0, _) => expand_plain(cmode, imm8),
        (1, 0..=13) => expand_plain(cmode, imm8),
        (1, 14) => Ok(bytes_of(imm8)),
        _ => Err(Refusal::BlankCell),
    }
}

// The operand of a row with op 0.
fn plain_operand(cmode: u8, imm8: u8) -> Operand
    ensures { result ≡ modimm_operand 0 cmode imm8 }
{
    match cmode {
        0..=14 => Operand::Imm(element_of(cmode, imm8) as i64),
        15 => Operand::Float(imm_float(imm8)),
        _ => Operand::Absent,
    }
}

// The operand that the assembler writes for an immediate; absent for the undefined row.
pub fn modimm_operand(op: u8, cmode: u8, imm8: u8) -> Operand
    ensures { result ≡ modimm_operand op cmode imm8 }
{
    match (op, cmode) {
        (0, _) => plain_operand(cmode, imm8),
        (1, 0..=13) => plain_operand(cmode, imm8),
        (1, 14) => Operand::Imm(signed::signed_of(bytes_of(imm8))),
        _ => Operand::Absent,
    }
}
