// Writing one register and a modified immediate.
ghost use Rattle.std.specs.Prelude.{◌≡◌};
ghost use Rattle.names.specs.Names.{name_of};
ghost use Rattle.writings.specs.Answers.{pair_of, writing_answer};
ghost use Rattle.write_immediates.specs.Modimm.{modimm_pair, modimm_writing};

use immediate_values::FirstCell;
use insn::Refusal;
use writings::Operands;

// The pair of the place op:cmode:imm8 and the register D:Vd.
#[tactic(auto, using(crate::proofs::Packed::modimm_packed))]
pub fn modimm_pair(t: u16, quad: bool, d: u8) -> (u16, u16)
    ensures { pair_of result ≡ modimm_pair t quad d }
{
    let cell = (t / 256) as u8;
    let imm8 = (t % 256) as u8;
    (
        fields::first_halfword(imm8 / 128, 1, d / 16, imm8 / 16 % 8),
        fields::second_halfword(d, cell, 0, u8::from(quad), cell / 16, 1, imm8),
    )
}

// Writes a mnemonic of table A7-14.
#[tactic(auto, unfolding(crate::specs::Modimm::modimm_writing))]
pub fn encode_modimm(m: FirstCell, o: Operands) -> Result<(u16, u16), Refusal>
    ensures { writing_answer result ≡ modimm_writing (name_of m.mnemonic) o.count o.first o.second }
{
    if o.count != 2 {
        return Err(Refusal::WrongForm);
    }
    let quad = writings::is_quad(o.first);
    let d = writings::register(quad, o.first)?;
    let t = m.immediate(o.second)?;
    Ok(modimm_pair(t, quad, d))
}
