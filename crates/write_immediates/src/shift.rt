// Writing two registers and a shift amount.
ghost use Rattle.std.specs.Prelude.{◌≡◌};
ghost use Rattle.amount_values.specs.Amounts.{amount_in};
ghost use Rattle.insn.specs.Widths.{size_of};
ghost use Rattle.tables.specs.Lengths.{class_lengths};
ghost use Rattle.writings.specs.Answers.{pair_of, writing_answer};
ghost use Rattle.writings.specs.Forms.{register_in, all_three};
ghost use Rattle.writings.specs.Own.{fields_answer};
ghost use Rattle.write_immediates.specs.Shift.{shift_pair, bit_b, shift_classed, shift_writing, vmovl_writing};

use insn::{Operand, Refusal, Width, widths};
use tables::ShiftClass;
use writings::Operands;

// The bit at B, by the row's class.
fn bit_b(class: ShiftClass, quad: bool, cell: u8) -> u8
    ensures { result ≡ bit_b class quad cell }
{
    match class {
        ShiftClass::Narrow | ShiftClass::Long => cell / 4 % 2,
        ShiftClass::Right | ShiftClass::Left | ShiftClass::Convert => u8::from(quad),
    }
}

// The pair of the cell U:A:B:size in a row of the class, the amount L:imm6 and the registers D:Vd and M:Vm.
#[tactic(auto, using(crate::proofs::Packed::shift_packed))]
fn shift_pair(class: ShiftClass, cell: u8, quad: bool, t: u8, d: u8, m: u8) -> (u16, u16)
    ensures { pair_of result ≡ shift_pair cell (bit_b class quad cell) t d m }
{
    (
        fields::first_halfword(cell / 128, 1, d / 16, t),
        fields::second_halfword(d, cell / 8, t / 64, bit_b(class, quad, cell), m / 16, 1, m),
    )
}

// The registers and the amount, for elements of a width in a row of the class.
#[tactic(auto, unfolding(writings::specs::Forms::all_three))]
fn operands(
    class: ShiftClass,
    quad: bool,
    width: Width,
    o: Operands,
) -> Result<(u8, u8, u8), Refusal>
    ensures { fields_answer result ≡ all_three (register_in (class_lengths class quad).d o.first) (register_in (class_lengths class quad).m o.second) (amount_in class (size_of width) o.third) }
{
    let lengths = tables::lengths::of_class(class, quad);
    Ok((
        writings::register(lengths.d, o.first)?,
        writings::register(lengths.m, o.second)?,
        amount_values::amount(class, width, o.third)?,
    ))
}

// Writes a mnemonic of table A7-12 that stands in a cell of a row of the class.
#[tactic(auto, using(crate::proofs::Packed::size_back), unfolding(crate::specs::Shift::shift_classed))]
fn classed(class: ShiftClass, cell: u8, o: Operands) -> Result<(u16, u16), Refusal>
    ensures { writing_answer result ≡ shift_classed class cell o.count o.first o.second o.third }
{
    if o.count != 3 {
        return Err(Refusal::WrongForm);
    }
    let quad = writings::is_quad(o.first);
    let width = widths::width_at((cell % 4).into());
    let (d, m, t) = operands(class, quad, width, o)?;
    Ok(shift_pair(class, cell, quad, t, d, m))
}

// Writes a mnemonic of table A7-12 that stands in a cell.
pub fn encode_shift(cell: u8, o: Operands) -> Result<(u16, u16), Refusal>
    ensures { writing_answer result ≡ shift_writing cell o.count o.first o.second o.third }
{
    classed(immediate_tables::shift::class(cell / 4), cell, o)
}

// Writes VMOVL, which stands in the cell U:size: VSHLL by 0.
#[tactic(auto, using(crate::proofs::Packed::its_cell), unfolding(crate::specs::Shift::vmovl_writing))]
pub fn encode_vmovl(cell: u8, o: Operands) -> Result<(u16, u16), Refusal>
    ensures { writing_answer result ≡ vmovl_writing cell o.count o.first o.second }
{
    if o.count != 2 {
        return Err(Refusal::WrongForm);
    }
    let by_0 = Operands {
        count: 3,
        third: Operand::Imm(0),
        ..o
    };
    encode_shift(cell / 4 % 2 * 128 + 80 + cell % 4, by_0)
}
