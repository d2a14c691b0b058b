// Which registers of a mnemonic are quadwords, by its row.
ghost use Rattle.std.specs.Prelude.{◌≡◌};
ghost use Rattle.tables.specs.Lengths.{lengths, shape_lengths, class_lengths};

use crate::{DiffShape, ShiftClass};

// Whether Vd, Vn and Vm are quadwords; a shift has no Vn, and its n is as its m.
#[derive(Clone, Copy, PartialEq, Eq)]
pub struct Lengths {
    pub d: bool,
    pub n: bool,
    pub m: bool,
}

// In a row of A7-10 of that shape.
pub fn of_shape(shape: DiffShape) -> Lengths
    ensures { result ≡ shape_lengths shape }
{
    match shape {
        DiffShape::Long => Lengths {
            d: true,
            n: false,
            m: false,
        },
        DiffShape::Wide => Lengths {
            d: true,
            n: true,
            m: false,
        },
        DiffShape::Narrow => Lengths {
            d: false,
            n: true,
            m: true,
        },
    }
}

// All of one length.
pub fn alike(quad: bool) -> Lengths
    ensures { result ≡ lengths quad quad quad }
{
    Lengths {
        d: quad,
        n: quad,
        m: quad,
    }
}

// In a row of A7-12 of that class, with its Q where it has one.
pub fn of_class(class: ShiftClass, quad: bool) -> Lengths
    ensures { result ≡ class_lengths class quad }
{
    match class {
        ShiftClass::Right => alike(quad),
        ShiftClass::Left => alike(quad),
        ShiftClass::Narrow => Lengths {
            d: false,
            n: true,
            m: true,
        },
        ShiftClass::Long => Lengths {
            d: true,
            n: false,
            m: false,
        },
        ShiftClass::Convert => alike(quad),
    }
}
