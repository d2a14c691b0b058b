// The modified immediate op:cmode:imm8 of a mnemonic and a number or a float.
#![tactic(auto)]

ghost use Rattle.std.specs.Prelude.{false, ◌≡◌, ◌<◌};
ghost use Rattle.laws.specs.Signed.{twos_complement};
ghost use Rattle.homes.specs.Home.{home_of};
ghost use Rattle.homes.specs.declared.Home.TheVariants.{Modimm};
ghost use Rattle.names.specs.Names.{name_of};
ghost use Rattle.fields.specs.Halfwords.{bit, field};
ghost use Rattle.insn.specs.Answers.{answer};
ghost use Rattle.immediate_values.specs.Immediates.{same_value, immediate_reads, immediate_of, immediate_in};
ghost use Rattle.immediate_values.specs.Own.{two_bits, four_bits, byte_bits, halfword_offset, word_offset, OnlyPlace};

use insn::{Operand, Refusal, signed};

// The mnemonic that takes a float, and the first place of its cell.
const VMOV_F32: u16 = 266;

const FLOATS: u16 = 0xf00;

// The lowest bit of each of two bytes, of four, and of a pattern's eight.
fn two_bits(p: u64) -> u16
    ensures { (result ≡ two_bits p) × (result < 4) }
{
    (p % 2 + p / 0x100 % 2 * 2) as u16
}

fn four_bits(p: u64) -> u16
    ensures { (result ≡ four_bits p) × (result < 16) }
{
    two_bits(p) + two_bits(p / 0x1_0000) * 4
}

pub fn byte_bits(p: u64) -> u16
    ensures { (result ≡ byte_bits p) × (result < 256) }
{
    four_bits(p) + four_bits(p / 0x1_0000_0000) * 16
}

// Where a 16-bit pattern would stand, from a name's first place on: imm8 as it is, or shifted by 8.
pub fn halfword_offset(p: u64) -> u16
    ensures { (result ≡ halfword_offset p) × (result < 0x300) }
{
    if p < 0x100 {
        return p as u16;
    }
    0x200 + (p / 0x100 % 256) as u16
}

// Where a 32-bit pattern would stand: imm8 as it is, or shifted by 8, 16 or 24, or by 8 or 16 with ones below it.
pub fn word_offset(p: u64) -> u16
    ensures { (result ≡ word_offset p) × (result < 0xe00) }
{
    if p < 0x100 {
        return p as u16;
    }
    if p < 0x1_0000 {
        if p % 0x100 == 0 {
            return 0x200 + (p / 0x100) as u16;
        }
        return 0xc00 + (p / 0x100) as u16;
    }
    if p < 0x100_0000 {
        if p % 0x1_0000 == 0 {
            return 0x400 + (p / 0x1_0000) as u16;
        }
        return 0xd00 + (p / 0x1_0000) as u16;
    }
    0x600 + (p / 0x100_0000 % 256) as u16
}

// Whether an immediate's operand is a number.
fn is_value(o: Operand, v: i64) -> bool
    ensures { result ≡ same_value o (Operand.Imm v) }
{
    match o {
        Operand::Imm(w) => w == v,
        _ => false,
    }
}

// op:cmode:imm8 of a float.
#[tactic(auto, using(crate::proofs::Immediates::float_found, crate::proofs::Immediates::float_none))]
fn float_immediate(x: f64) -> Result<u16, Refusal>
    ensures { answer result ≡ immediate_of "vmov.f32" (Operand.Float x) }
{
    let imm8 = floats::float_imm8(x).ok_or(Refusal::NoSuchValue)?;
    Ok(FLOATS + imm8 as u16)
}

// A mnemonic of table A7-14, and its first cell op:cmode.
#[derive(Clone, Copy)]
pub struct FirstCell {
    pub mnemonic: u16,
    pub cell: u8,
    ghost home: { home_of (name_of mnemonic) false ≡ Modimm cell },
}

impl FirstCell {
    // The one place op:cmode:imm8 that could carry the mnemonic and the number of a pattern.
    fn candidate(self, p: u64) -> u16
        ensures { (result < 8192) × OnlyPlace (name_of self.mnemonic) (Operand.Imm (twos_complement 64 p)) result }
    {
        let base = self.cell as u16 * 256;
        if self.cell % 16 == 14 {
            if self.cell < 16 {
                return base + (p % 256) as u16;
            }
            return base + byte_bits(p);
        }
        if self.cell % 16 < 8 {
            return base + word_offset(p);
        }
        base + halfword_offset(p)
    }

    // Whether the place op:cmode:imm8 is read as the mnemonic and a number.
    fn reads(self, v: i64, t: u16) -> bool
        requires { t < 8192 }
        ensures { result ≡ immediate_reads (name_of self.mnemonic) (Operand.Imm v) (bit 12 t) (field 11 8 t) (field 7 0 t) }
    {
        let row = (t / 256) as u8;
        let imm8 = (t % 256) as u8;
        if immediate_tables::modimm::cell(row) != Some(self.mnemonic) {
            return false;
        }
        if immediates::is_zero_refused(row % 16, imm8) {
            return false;
        }
        is_value(immediates::modimm_operand(row / 16, row % 16, imm8), v)
    }

    // op:cmode:imm8 of the mnemonic and a number: the candidate, if it is read so.
    fn number_immediate(self, v: i64) -> Result<u16, Refusal>
        ensures { answer result ≡ immediate_of (name_of self.mnemonic) (Operand.Imm v) }
    {
        let t = self.candidate(signed::pattern_of(v));
        if self.reads(v, t) {
            return Ok(t);
        }
        Err(Refusal::NoSuchValue)
    }

    // op:cmode:imm8 of the mnemonic and its second operand.
    #[tactic(auto, using(crate::proofs::Immediates::takes_float, crate::proofs::Immediates::takes_number), unfolding(crate::specs::Immediates::immediate_in))]
    pub fn immediate(self, o: Operand) -> Result<u16, Refusal>
        ensures { answer result ≡ immediate_in (name_of self.mnemonic) o }
    {
        match o {
            Operand::Imm(v) => {
                if self.mnemonic == VMOV_F32 {
                    return Err(Refusal::WrongForm);
                }
                self.number_immediate(v)
            }
            Operand::Float(x) => {
                if self.mnemonic == VMOV_F32 {
                    return float_immediate(x);
                }
                Err(Refusal::WrongForm)
            }
            _ => Err(Refusal::WrongForm),
        }
    }
}
