// The operands of a record, joined by commas.
ghost use Rattle.std.specs.Prelude.{false, ◌≡◌, ◌∷◌, map, ◌<◌, ◌^◌};
ghost use Rattle.floats.specs.Found.{find_float};
ghost use Rattle.display.specs.Operands.{over_text, operand_text, with_commas, operands};
ghost use Rattle.display.specs.Own.{is_register, register_letter, register_number};
ghost use Rattle.text.specs.Text.{decimal};
ghost use Rattle.text.specs.Writes.{Writes};

use insn::{Insn, Operand};
use text::Page;

// A letter and a number.
fn put_register(page: &mut Page<u8>, letter: u8, n: u8)
    requires { page.old.at < 2 ^ 60 }
    ensures { Writes 4 page.old (letter ∷ decimal n) page.new }
{
    page.put(letter);
    if n < 100 {
        page.put_small(n as u64);
    } else {
        page.put_five(n as u64);
    }
}

// A float as k over 128.
fn put_over(page: &mut Page<u8>, x: f64)
    requires { page.old.at < 2 ^ 60 }
    ensures { Writes 9 page.old (over_text (find_float x)) page.new }
{
    if let Some(b) = floats::float_imm8(x) {
        page.put_minus(128 <= b);
        page.put_five(floats::float_k(b) as u64);
        page.put_word(b'/', b'1', b'2', b'8');
    }
}

fn is_register(o: Operand) -> bool
    ensures { result ≡ is_register o }
{
    matches!(o, Operand::D(_) | Operand::Q(_) | Operand::S(_))
}

// The letter of a register; 0 for what is none.
fn register_letter(o: Operand) -> u8
    ensures { result ≡ register_letter o }
{
    match o {
        Operand::D(_) => b'd',
        Operand::Q(_) => b'q',
        Operand::S(_) => b's',
        Operand::Imm(_) | Operand::Float(_) | Operand::Other | Operand::Absent => 0,
    }
}

// The number of a register; 0 for what is none.
fn register_number(o: Operand) -> u8
    ensures { result ≡ register_number o }
{
    match o {
        Operand::D(n) | Operand::Q(n) | Operand::S(n) => n,
        Operand::Imm(_) | Operand::Float(_) | Operand::Other | Operand::Absent => 0,
    }
}

// An operand that is no register.
fn put_value(page: &mut Page<u8>, o: Operand)
    requires at_bound { page.old.at < 2 ^ 58 }
    requires o_value { is_register o ≡ false }
    ensures { Writes 21 page.old (operand_text o) page.new }
{
    match o {
        Operand::Imm(v) => {
            page.put(b'#');
            page.put_signed(v);
        }
        Operand::Float(x) => {
            page.put(b'#');
            put_over(page, x);
        }
        Operand::D(_) | Operand::Q(_) | Operand::S(_) | Operand::Other | Operand::Absent => {}
    }
}

// An operand; D and Q go the same way, since nothing foretells which it is.
fn put_operand(page: &mut Page<u8>, o: Operand)
    requires { page.old.at < 2 ^ 58 }
    ensures { Writes 21 page.old (operand_text o) page.new }
{
    if is_register(o) {
        put_register(page, register_letter(o), register_number(o));
    } else {
        put_value(page, o);
    }
}

// A comma and an operand.
fn put_next(page: &mut Page<u8>, o: Operand)
    requires { page.old.at < 2 ^ 57 }
    ensures { Writes 22 page.old (44 ∷ operand_text o) page.new }
{
    page.put(b',');
    put_operand(page, o);
}

// The operands within the count.
pub fn put_operands(page: &mut Page<u8>, i: Insn)
    requires { page.old.at < 2 ^ 56 }
    ensures { Writes 65 page.old (with_commas (map operand_text (operands i))) page.new }
{
    if i.count == 0 {
        return;
    }
    put_operand(page, i.first);
    if i.count == 1 {
        return;
    }
    put_next(page, i.second);
    if i.count == 2 {
        return;
    }
    put_next(page, i.third);
}
