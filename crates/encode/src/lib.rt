// Writing a record as a pair of halfwords.
#![tactic(auto)]

ghost use Rattle.std.specs.Prelude.{◌≡◌};
ghost use Rattle.homes.specs.Home.{home_of};
ghost use Rattle.names.specs.Names.{name_of};
ghost use Rattle.writings.specs.Answers.{writing_answer};
ghost use Rattle.writings.specs.Forms.{is_number};
ghost use Rattle.encode.specs.Writing.{in_home, writing_in};

use homes::Home;
use immediate_values::FirstCell;
use insn::{Edition, Insn, Refusal};
use write_immediates::{modimm, shift};
use write_registers::{diff, same3};
use writings::{Operands, is_number};

// Writes mnemonic m and its operands in the table where it is at home.
#[tactic(auto, using(immediate_values::proofs::Immediates::plain_home))]
fn write_in(home: Home, m: u16, o: Operands) -> Result<(u16, u16), Refusal>
    requires { home ≡ home_of (name_of m) (is_number o.third) }
    ensures { writing_answer result ≡ in_home home (name_of m) o.count o.first o.second o.third }
{
    match home {
        Home::Same3(cell) => same3::encode_same3(cell, m, o),
        Home::Shift(cell) => shift::encode_shift(cell, o),
        Home::Vmovl(cell) => shift::encode_vmovl(cell, o),
        Home::Modimm(cell) => modimm::encode_modimm(FirstCell { mnemonic: m, cell }, o),
        Home::Diff(cell) => diff::encode_diff(cell, o),
        Home::Vmov => same3::encode_vmov(o),
        Home::Nowhere => Err(Refusal::UnknownMnemonic),
    }
}

// The pair of a record, as the edition has it, whatever its address and its mark.
#[tactic(auto, unfolding(crate::specs::Writing::writing))]
pub fn write(edition: Edition, i: Insn) -> Result<(u16, u16), Refusal>
    ensures { writing_answer result ≡ writing_in edition i }
{
    if editions::withholds(edition, i.mnemonic) {
        return Err(Refusal::UnknownMnemonic);
    }
    let operands = Operands {
        count: i.count,
        first: insn::place(i, 0),
        second: insn::place(i, 1),
        third: insn::place(i, 2),
    };
    let home = homes::home_of(i.mnemonic, is_number(operands.third));
    write_in(home, i.mnemonic, operands)
}
