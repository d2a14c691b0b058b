// Writing three registers of the same length.
ghost use Rattle.std.specs.Prelude.{◌≡◌};
ghost use Rattle.names.specs.Names.{name_of};
ghost use Rattle.writings.specs.Answers.{pair_of, writing_answer};
ghost use Rattle.writings.specs.Forms.{numbers};
ghost use Rattle.write_registers.specs.Same3.{same3_pair, same3_form, same3_writing, vmov_writing};

use insn::Refusal;
use names::VORR;
use tables::lengths;
use writings::Operands;

// The cell of vorr: U=0, opc=0001, B=1, size=2.
const VORR_CELL: u8 = 14;

// The pair of the cell U:opc:B:size and the registers D:Vd, N:Vn and M:Vm.
#[tactic(auto, using(crate::proofs::Packed::same3_packed))]
fn same3_pair(cell: u8, quad: bool, d: u8, n: u8, m: u8) -> (u16, u16)
    ensures { pair_of result ≡ same3_pair cell quad d n m }
{
    (
        fields::first_halfword(cell / 128, 0, d / 16, cell % 4 * 16 + n % 16),
        fields::second_halfword(d, cell / 8, n / 16, u8::from(quad), m / 16, cell / 4, m),
    )
}

// The pair of a mnemonic's cell and its operands' numbers.
#[tactic(auto, unfolding(crate::specs::Same3::same3_form))]
fn same3_form(cell: u8, m: u16, quad: bool, a: u8, b: u8, c: u8) -> Result<(u16, u16), Refusal>
    ensures { writing_answer result ≡ same3_form cell (name_of m) quad (numbers a b c) }
{
    if names::is_pairwise_quad(quad, m) {
        return Err(Refusal::PairwiseQuad);
    }
    if cell / 16 % 8 == 2 {
        return Ok(same3_pair(cell, quad, a, c, b));
    }
    Ok(same3_pair(cell, quad, a, b, c))
}

// Writes a mnemonic of table A7-9 that stands in a cell.
#[tactic(auto, unfolding(crate::specs::Same3::same3_writing))]
pub fn encode_same3(cell: u8, m: u16, o: Operands) -> Result<(u16, u16), Refusal>
    ensures { writing_answer result ≡ same3_writing cell (name_of m) o.count o.first o.second o.third }
{
    if o.count != 3 {
        return Err(Refusal::WrongForm);
    }
    let quad = writings::is_quad(o.first);
    let (a, b, c) = writings::registers(lengths::alike(quad), o)?;
    same3_form(cell, m, quad, a, b, c)
}

// Writes VMOV of a register: VORR with equal sources.
#[tactic(auto, unfolding(crate::specs::Same3::vmov_writing, names::specs::Names::names, names::specs::Names::name_of))]
pub fn encode_vmov(o: Operands) -> Result<(u16, u16), Refusal>
    ensures { writing_answer result ≡ vmov_writing o.count o.first o.second }
{
    if o.count != 2 {
        return Err(Refusal::WrongForm);
    }
    let sources = Operands {
        count: 3,
        third: o.second,
        ..o
    };
    encode_same3(VORR_CELL, VORR, sources)
}
