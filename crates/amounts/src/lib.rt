// Shift amounts: what L and imm6 stand for.
#![tactic(auto)]

ghost use Rattle.std.specs.Prelude.{◌≡◌, ◌-◌, ◌≤◌};
ghost use Rattle.amounts.specs.Shifts.{is_escape, right_end, left_start, amount_of, size_code};
ghost use Rattle.insn.specs.Widths.{bits_at};

use tables::ShiftClass;

// Whether L and imm6 encode no element size: the pair is then a modified-immediate one.
#[tactic(auto, unfolding(crate::specs::Shifts::is_escape))]
pub fn is_modimm_escape(l: u8, imm6: u8) -> bool
    ensures { result ≡ is_escape l imm6 }
{
    l == 0 && imm6 / 8 % 8 == 0
}

// The element size that L and imm6 encode: 0 to 3 for 8 to 64 bits.
#[tactic(auto, unfolding(crate::specs::Shifts::size_code))]
pub fn shift_code(l: u8, imm6: u8) -> u8
    ensures { result ≡ size_code l imm6 }
{
    if l != 0 {
        3
    } else if imm6 / 32 % 2 == 1 {
        2
    } else if imm6 / 16 % 2 == 1 {
        1
    } else {
        0
    }
}

// The bits of an element whose size L and imm6 encode.
fn element_bits(l: u8, imm6: u8) -> u8
    ensures { (result ≡ bits_at (size_code l imm6)) × (result ≤ 64) }
{
    8 << shift_code(l, imm6)
}

// What the amounts of a right shift count down from.
#[tactic(auto, unfolding(crate::specs::Shifts::right_end))]
fn right_end(l: u8, imm6: u8) -> u8
    ensures { result ≡ right_end l imm6 }
{
    if l == 0 {
        2 * element_bits(l, imm6)
    } else {
        64
    }
}

// What the amounts of a left shift count up from.
#[tactic(auto, unfolding(crate::specs::Shifts::left_start))]
fn left_start(l: u8, imm6: u8) -> u8
    ensures { result ≡ left_start l imm6 }
{
    if l == 0 { element_bits(l, imm6) } else { 0 }
}

// The amount that L and imm6 encode in a row of the class.
pub fn shift_amount(class: ShiftClass, l: u8, imm6: u8) -> u8
    ensures { result ≡ amount_of class l imm6 }
{
    match class {
        ShiftClass::Right | ShiftClass::Narrow => right_end(l, imm6).saturating_sub(imm6),
        ShiftClass::Left | ShiftClass::Long => imm6.saturating_sub(left_start(l, imm6)),
        ShiftClass::Convert => 64u8.saturating_sub(imm6),
    }
}
