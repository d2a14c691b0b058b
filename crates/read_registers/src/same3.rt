// Three registers of the same length.
ghost use Rattle.std.specs.Prelude.{◌≡◌, ◌<◌, eqb};
ghost use lib.Text.{eqt};
ghost use Rattle.names.specs.Names.{name_of};
ghost use Rattle.insn.specs.Answers.{answer};
ghost use Rattle.laws.specs.Choice.{both};
ghost use Rattle.read_registers.specs.Same3.{same3_of, same3_reading};

use fields::dnum;
use insn::{Insn, Mark, Refusal};
use names::{VMOV, VORR};
use readings::register;

// vorr with equal sources.
fn is_move(mnemonic: u16, n: u8, m: u8) -> bool
    ensures { result ≡ both (eqt (name_of mnemonic) "vorr") (eqb n m) }
{
    mnemonic == VORR && n == m
}

// The reading of a mnemonic: d, n and m are the numbers of its registers.
fn with_registers(
    mnemonic: u16,
    quad: bool,
    opc: u16,
    d: u8,
    n: u8,
    m: u8,
    address: u32,
) -> Result<Insn, Refusal>
    requires { mnemonic < 346 }
    ensures { answer result ≡ same3_of (name_of mnemonic) quad opc d n m address }
{
    if names::is_pairwise_quad(quad, mnemonic) {
        return Err(Refusal::PairwiseQuad);
    }
    let vd = register(quad, d);
    let vm = register(quad, m);
    if is_move(mnemonic, n, m) {
        return readings::two(VMOV, address, vd, vm);
    }
    let vn = register(quad, n);
    if opc / 2 % 8 == 2 {
        return readings::three(mnemonic, Mark::T1, address, vd, vm, vn);
    }
    readings::three(mnemonic, Mark::T1, address, vd, vn, vm)
}

// Reads a pair of the family three-same.
pub fn decode_same3(hw1: u16, hw2: u16, address: u32) -> Result<Insn, Refusal>
    ensures { answer result ≡ same3_reading hw1 hw2 address }
{
    let row = (hw1 / 4096 % 2 * 32 + hw2 / 256 % 16 * 2 + hw2 / 16 % 2) as u8;
    let size = (hw1 / 16 % 4) as u8;
    let mnemonic = register_tables::same3::cell(row * 4 + size).ok_or(Refusal::BlankCell)?;
    with_registers(
        mnemonic,
        hw2 / 64 % 2 == 1,
        hw2 / 256 % 16,
        dnum(hw1 / 64 % 2, hw2 / 4096 % 16),
        dnum(hw2 / 128 % 2, hw1 % 16),
        dnum(hw2 / 32 % 2, hw2 % 16),
        address,
    )
}
