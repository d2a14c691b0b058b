// The bits of an element, and the width of a size.
ghost use Rattle.std.specs.Prelude.{◌≡◌};
ghost use Rattle.insn.specs.Widths.{bits_of, width_at};

use crate::Width;

// A width as a number.
pub fn bits(w: Width) -> u32
    ensures { result ≡ bits_of w }
{
    match w {
        Width::B8 => 8,
        Width::B16 => 16,
        Width::B32 => 32,
        Width::B64 => 64,
    }
}

// The width of a size, 0 to 3; past them it is the last.
pub fn width_at(size: u16) -> Width
    ensures { result ≡ width_at size }
{
    match size {
        0 => Width::B8,
        1 => Width::B16,
        2 => Width::B32,
        _ => Width::B64,
    }
}
