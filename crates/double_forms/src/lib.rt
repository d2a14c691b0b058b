// The forms of the names of three registers of unlike length.
#![tactic(auto)]

ghost use Rattle.std.specs.Prelude.{◌≡◌, ◌<◌, ◌≤◌};
ghost use Rattle.forms.specs.declared.Form.TheVariants.{Double};
ghost use Rattle.forms.specs.Forms.{form_of};
ghost use Rattle.insn.specs.Widths.{width_at};
ghost use Rattle.names.specs.Names.{name_of};

use double_lanes::{DoubleOp, LongOp, NarrowOp, WideOp};
use forms::Form;
use insn::Sign;
use insn::widths::width_at;

// The form of an operation between lanes of w and 2w bits, at the width k.
fn double_at(op: DoubleOp, k: u16) -> Form
    ensures { result ≡ Double op (width_at k) }
{
    Form::Double(op, width_at(k))
}

// The names of three registers of unlike length in the first half of their table.
pub fn lower_double(m: u16) -> Form
    requires { (272 ≤ m) × (m < 312) }
    ensures { result ≡ form_of (name_of m) }
{
    match m {
        0..=274 => double_at(DoubleOp::Long(LongOp::Add, Sign::Signed), m - 272),
        275..=277 => double_at(DoubleOp::Wide(WideOp::Add, Sign::Signed), m - 275),
        278..=280 => double_at(DoubleOp::Long(LongOp::Sub, Sign::Signed), m - 278),
        281..=283 => double_at(DoubleOp::Wide(WideOp::Sub, Sign::Signed), m - 281),
        284..=286 => double_at(DoubleOp::Narrow(NarrowOp::Add), m - 284),
        287..=289 => Form::Nothing,
        290..=292 => double_at(DoubleOp::Narrow(NarrowOp::Sub), m - 290),
        293..=295 => Form::Nothing,
        296..=298 => double_at(DoubleOp::Long(LongOp::Mla, Sign::Signed), m - 296),
        299..=300 => Form::Nothing,
        301..=303 => double_at(DoubleOp::Long(LongOp::Mls, Sign::Signed), m - 301),
        304..=305 => Form::Nothing,
        306..=308 => double_at(DoubleOp::Long(LongOp::Mul, Sign::Signed), m - 306),
        _ => Form::Nothing,
    }
}

// The names of three registers of unlike length in the second half of their table.
pub fn upper_double(m: u16) -> Form
    requires { (312 ≤ m) × (m < 345) }
    ensures { result ≡ form_of (name_of m) }
{
    match m {
        0..=314 => double_at(DoubleOp::Long(LongOp::Add, Sign::Unsigned), m - 312),
        315..=317 => double_at(DoubleOp::Wide(WideOp::Add, Sign::Unsigned), m - 315),
        318..=320 => double_at(DoubleOp::Long(LongOp::Sub, Sign::Unsigned), m - 318),
        321..=323 => double_at(DoubleOp::Wide(WideOp::Sub, Sign::Unsigned), m - 321),
        324..=335 => Form::Nothing,
        336..=338 => double_at(DoubleOp::Long(LongOp::Mla, Sign::Unsigned), m - 336),
        339..=341 => double_at(DoubleOp::Long(LongOp::Mls, Sign::Unsigned), m - 339),
        _ => double_at(DoubleOp::Long(LongOp::Mul, Sign::Unsigned), m - 342),
    }
}
