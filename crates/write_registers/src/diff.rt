// Writing three registers of different lengths.
ghost use Rattle.std.specs.Prelude.{◌≡◌};
ghost use Rattle.writings.specs.Answers.{pair_of, writing_answer};
ghost use Rattle.write_registers.specs.Diff.{diff_pair, diff_writing};

use insn::Refusal;
use writings::Operands;

// The pair of the cell U:A:size and the registers D:Vd, N:Vn and M:Vm.
#[tactic(auto, using(crate::proofs::Packed::diff_packed))]
fn diff_pair(cell: u8, d: u8, n: u8, m: u8) -> (u16, u16)
    ensures { pair_of result ≡ diff_pair cell d n m }
{
    (
        fields::first_halfword(cell / 64, 1, d / 16, cell % 4 * 16 + n % 16),
        fields::second_halfword(d, cell / 4, n / 16, 0, m / 16, 0, m),
    )
}

// Writes a mnemonic of table A7-10 that stands in a cell.
#[tactic(auto, unfolding(crate::specs::Diff::diff_shaped))]
pub fn encode_diff(cell: u8, o: Operands) -> Result<(u16, u16), Refusal>
    ensures { writing_answer result ≡ diff_writing cell o.count o.first o.second o.third }
{
    if o.count != 3 {
        return Err(Refusal::WrongForm);
    }
    let quad = tables::lengths::of_shape(register_tables::diff::shape(cell / 4));
    let (d, n, m) = writings::registers(quad, o)?;
    Ok(diff_pair(cell, d, n, m))
}
