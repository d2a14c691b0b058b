// The place L:imm6 of a shift amount. Once a number is known to be in range, it and its place are 8-bit numbers.
#![tactic(auto)]

ghost use Rattle.std.specs.Prelude.{◌≡◌, ◌+◌, ◌-◌, ◌*◌, ◌≤◌, eqb, ltb, pos};
ghost use Rattle.laws.specs.Answer.{accepted, refused};
ghost use Rattle.laws.specs.Choice.{choose};
ghost use Rattle.amount_values.specs.Amounts.{amount_in};
ghost use Rattle.amount_values.specs.Range.{is_outside};
ghost use Rattle.insn.specs.Answers.{answer};
ghost use Rattle.insn.specs.Widths.{bits_of, size_of};

use insn::{Operand, Refusal, Width};
use tables::ShiftClass;

// The largest amount that a pair carries.
const LARGEST: i64 = 64;

// The bits of an element, 64 at most.
fn bits(width: Width) -> u8
    ensures { (result ≡ bits_of width) × (result ≤ 64) }
{
    insn::widths::bits(width) as u8
}

// L:imm6 of the amount k where the amounts 1 to the element's bits count down from twice them.
fn counted_down(width: Width, k: u8) -> Result<u8, Refusal>
    ensures { answer result ≡ choose (eqb k 0) (refused 9) (choose (ltb (bits_of width) k) (refused 9) (accepted (2 * bits_of width - k))) }
{
    let n = bits(width);
    if (1..=n).contains(&k) {
        Ok(2 * n - k)
    } else {
        Err(Refusal::NoSuchValue)
    }
}

// L:imm6 of the amount k where the amounts below the element's bits count up from them.
fn counted_up(width: Width, k: u8) -> Result<u8, Refusal>
    ensures { answer result ≡ choose (ltb k (bits_of width)) (accepted (bits_of width + k)) (refused 9) }
{
    let n = bits(width);
    if k < n {
        return Ok(n + k);
    }
    Err(Refusal::NoSuchValue)
}

// L:imm6 of the amount k for elements of a width in a row of the class; a blank column has no amounts.
fn amount_place(class: ShiftClass, width: Width, k: u8) -> Result<u8, Refusal>
    requires { k ≤ 64 }
    ensures { answer result ≡ amount_in class (size_of width) (Operand.Imm (pos k)) }
{
    match class {
        ShiftClass::Right => counted_down(width, k),
        ShiftClass::Left => counted_up(width, k),
        ShiftClass::Narrow => match width {
            Width::B64 => Err(Refusal::NoSuchValue),
            _ => counted_down(width, k),
        },
        ShiftClass::Long => match width {
            Width::B64 => Err(Refusal::NoSuchValue),
            _ => counted_up(width, k),
        },
        ShiftClass::Convert => match width {
            Width::B8 => counted_down(Width::B32, k),
            _ => Err(Refusal::NoSuchValue),
        },
    }
}

// Whether a number is outside 0 to 64, and so no amount of any row.
fn is_outside(v: i64) -> bool
    ensures { result ≡ is_outside v }
{
    !(0..=LARGEST).contains(&v)
}

// L:imm6 of a number as an amount: its range is tested first, since 8 bits of 256 would be those of 0.
#[tactic(auto, using(crate::proofs::Amounts::outside_nine))]
fn number_place(class: ShiftClass, width: Width, v: i64) -> Result<u8, Refusal>
    ensures { answer result ≡ amount_in class (size_of width) (Operand.Imm v) }
{
    if is_outside(v) {
        return Err(Refusal::NoSuchValue);
    }
    amount_place(class, width, v as u8)
}

// L:imm6 of the operand that is the amount.
#[tactic(auto, unfolding(crate::specs::Amounts::amount_in))]
pub fn amount(class: ShiftClass, width: Width, o: Operand) -> Result<u8, Refusal>
    ensures { answer result ≡ amount_in class (size_of width) o }
{
    match o {
        Operand::Imm(v) => number_place(class, width, v),
        _ => Err(Refusal::WrongForm),
    }
}
