// One register and a modified immediate.
ghost use Rattle.std.specs.Prelude.{◌≡◌};
ghost use Rattle.insn.specs.Answers.{answer};
ghost use Rattle.read_immediates.specs.Modimm.{modimm_reading};

use fields::dnum;
use insn::{Insn, Refusal};
use readings::register;

// Reads a pair of the family modified-immediate.
pub fn decode_modimm(hw1: u16, hw2: u16, address: u32) -> Result<Insn, Refusal>
    ensures { answer result ≡ modimm_reading hw1 hw2 address }
{
    let op = (hw2 / 32 % 2) as u8;
    let cmode = (hw2 / 256 % 16) as u8;
    let imm8 = (hw1 / 4096 % 2 * 128 + hw1 % 8 * 16 + hw2 % 16) as u8;
    let mnemonic = immediate_tables::modimm::cell(op * 16 + cmode).ok_or(Refusal::BlankCell)?;
    if immediates::is_zero_refused(cmode, imm8) {
        return Err(Refusal::ZeroImmediate);
    }
    let vd = register(hw2 / 64 % 2 == 1, dnum(hw1 / 64 % 2, hw2 / 4096 % 16));
    let value = immediates::modimm_operand(op, cmode, imm8);
    readings::two(mnemonic, address, vd, Ok(value))
}
