// Three registers of different lengths.
ghost use Rattle.std.specs.Prelude.{◌≡◌, ◌<◌};
ghost use Rattle.names.specs.Names.{name_of};
ghost use Rattle.insn.specs.Answers.{answer};
ghost use Rattle.read_registers.specs.Diff.{diff_of, diff_reading};

use fields::dnum;
use insn::{Insn, Mark, Refusal};
use readings::register;
use tables::DiffShape;

// The reading of a mnemonic: d, n and m are the numbers of its registers.
fn with_registers(
    mnemonic: u16,
    shape: DiffShape,
    mark: Mark,
    d: u8,
    n: u8,
    m: u8,
    address: u32,
) -> Result<Insn, Refusal>
    requires { mnemonic < 346 }
    ensures { answer result ≡ diff_of (name_of mnemonic) shape mark d n m address }
{
    let quad = tables::lengths::of_shape(shape);
    let vd = register(quad.d, d);
    let vn = register(quad.n, n);
    let vm = register(quad.m, m);
    readings::three(mnemonic, mark, address, vd, vn, vm)
}

// Reads a pair of the family three-different.
pub fn decode_diff(hw1: u16, hw2: u16, address: u32) -> Result<Insn, Refusal>
    ensures { answer result ≡ diff_reading hw1 hw2 address }
{
    let row = (hw1 / 4096 % 2 * 16 + hw2 / 256 % 16) as u8;
    let size = (hw1 / 16 % 4) as u8;
    let mnemonic = register_tables::diff::cell(row * 4 + size).ok_or(Refusal::BlankCell)?;
    with_registers(
        mnemonic,
        register_tables::diff::shape(row),
        register_tables::diff::mark(row),
        dnum(hw1 / 64 % 2, hw2 / 4096 % 16),
        dnum(hw2 / 128 % 2, hw1 % 16),
        dnum(hw2 / 32 % 2, hw2 % 16),
        address,
    )
}
