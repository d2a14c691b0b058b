// Two registers and a shift amount.
ghost use Rattle.std.specs.Prelude.{◌≡◌, ◌<◌};
ghost use Rattle.insn.specs.Answers.{answer};
ghost use Rattle.read_immediates.specs.Shift.{forbidden, column_of, shifted, shift_reading, is_long_by_zero};

use amounts::{shift_amount, shift_code};
use fields::dnum;
use insn::{Insn, Mark, Operand, Refusal};
use readings::register;
use tables::ShiftClass;

// Whether a row of the class forbids L and imm6.
#[tactic(auto, unfolding(crate::specs::Shift::forbidden))]
fn is_forbidden(class: ShiftClass, l: u8, imm6: u8) -> bool
    ensures { result ≡ forbidden class l imm6 }
{
    match class {
        ShiftClass::Right | ShiftClass::Left => false,
        ShiftClass::Narrow | ShiftClass::Long => l == 1,
        ShiftClass::Convert => l == 1 || imm6 < 32,
    }
}

// The column of a row of the class.
#[tactic(auto, unfolding(crate::specs::Shift::column_of))]
fn column(class: ShiftClass, l: u8, imm6: u8) -> u8
    ensures value { result ≡ column_of class l imm6 }
    ensures upper_bound { result < 4 }
{
    match class {
        ShiftClass::Convert => 0,
        _ => shift_code(l, imm6),
    }
}

// Whether a shift by k in a row of the class is a move.
#[tactic(auto, unfolding(crate::specs::Shift::is_long_by_zero))]
fn is_move(class: ShiftClass, k: u8) -> bool
    ensures { result ≡ is_long_by_zero class k }
{
    matches!(class, ShiftClass::Long) && k == 0
}

// The record of a mnemonic in a row of the class; a move has the mnemonic `moved` and no amount.
#[tactic(auto, unfolding(crate::specs::Shift::shifted))]
fn with_amount(
    class: ShiftClass,
    mnemonic: u16,
    moved: u16,
    q: bool,
    k: u8,
    d: u8,
    m: u8,
    address: u32,
) -> Result<Insn, Refusal>
    ensures { answer result ≡ shifted class mnemonic moved q k d m address }
{
    let quad = tables::lengths::of_class(class, q);
    let vd = register(quad.d, d);
    let vm = register(quad.m, m);
    if is_move(class, k) {
        return readings::two(moved, address, vd, vm);
    }
    let value = Ok(Operand::Imm(i64::from(k)));
    readings::three(mnemonic, Mark::T1, address, vd, vm, value)
}

// Reads a pair of the family shift.
pub fn decode_shift(hw1: u16, hw2: u16, address: u32) -> Result<Insn, Refusal>
    ensures { answer result ≡ shift_reading hw1 hw2 address }
{
    let u = (hw1 / 4096 % 2) as u8;
    let row = (hw1 / 4096 % 2 * 32 + hw2 / 256 % 16 * 2 + hw2 / 64 % 2) as u8;
    let class = immediate_tables::shift::class(row);
    let l = (hw2 / 128 % 2) as u8;
    let imm6 = (hw1 % 64) as u8;
    if is_forbidden(class, l, imm6) {
        return Err(Refusal::FixedBits);
    }
    let size = column(class, l, imm6);
    let mnemonic = immediate_tables::shift::cell(row * 4 + size).ok_or(Refusal::BlankCell)?;
    with_amount(
        class,
        mnemonic,
        immediate_tables::shift::vmovl_cell(u * 4 + size),
        hw2 / 64 % 2 == 1,
        shift_amount(class, l, imm6),
        dnum(hw1 / 64 % 2, hw2 / 4096 % 16),
        dnum(hw2 / 32 % 2, hw2 % 16),
        address,
    )
}
