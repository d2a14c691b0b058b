// The form of a mnemonic.
#![tactic(auto)]

ghost use Rattle.std.specs.Prelude.{◌≡◌, ◌<◌, ◌≤◌};
ghost use Rattle.forms.specs.declared.Form.TheVariants.{Lanes};
ghost use Rattle.forms.specs.Forms.{form_of};
ghost use Rattle.insn.specs.Widths.{width_at};
ghost use Rattle.names.specs.Names.{name_of};

use double_forms::{lower_double, upper_double};
use forms::{Direction, Form};
use halving::HalvingOp;
use insn::widths::width_at;
use insn::{Sign, Width};
use lanes::LaneOp;
use names::VMOV;
use operations::{BitOp, ConstantOp};
use saturating::SaturatingOp;

// The form of a lane operation at the width k.
fn lanes_at(op: LaneOp, k: u16) -> Form
    ensures { result ≡ Lanes op (width_at k) }
{
    Form::Lanes(op, width_at(k))
}

// The names of three registers in the first half of their table.
fn lower_form(m: u16) -> Form
    requires { m < 100 }
    ensures { result ≡ form_of (name_of m) }
{
    match m {
        0..=2 => lanes_at(LaneOp::Halving(HalvingOp::Hadd, Sign::Signed), m),
        3..=6 => lanes_at(LaneOp::Saturating(SaturatingOp::Qadd, Sign::Signed), m - 3),
        7..=9 => lanes_at(LaneOp::Halving(HalvingOp::Rhadd, Sign::Signed), m - 7),
        10 => Form::Bits(BitOp::And),
        11 => Form::Bits(BitOp::Bic),
        12 => Form::Bits(BitOp::Orr),
        13 => Form::Bits(BitOp::Orn),
        14..=16 => lanes_at(LaneOp::Halving(HalvingOp::Hsub, Sign::Signed), m - 14),
        17..=20 => lanes_at(LaneOp::Saturating(SaturatingOp::Qsub, Sign::Signed), m - 17),
        21..=23 => lanes_at(LaneOp::Cgt(Sign::Signed), m - 21),
        24..=26 => lanes_at(LaneOp::Cge(Sign::Signed), m - 24),
        27..=42 => Form::Nothing,
        43..=45 => lanes_at(LaneOp::Max(Sign::Signed), m - 43),
        46..=48 => lanes_at(LaneOp::Min(Sign::Signed), m - 46),
        49..=54 => Form::Nothing,
        55..=58 => lanes_at(LaneOp::Add, m - 55),
        59..=61 => lanes_at(LaneOp::Tst, m - 59),
        62..=64 => lanes_at(LaneOp::Mla, m - 62),
        65..=67 => lanes_at(LaneOp::Mul, m - 65),
        68..=89 => Form::Nothing,
        90..=92 => lanes_at(LaneOp::Halving(HalvingOp::Hadd, Sign::Unsigned), m - 90),
        93..=96 => lanes_at(
            LaneOp::Saturating(SaturatingOp::Qadd, Sign::Unsigned),
            m - 93,
        ),
        _ => lanes_at(LaneOp::Halving(HalvingOp::Rhadd, Sign::Unsigned), m - 97),
    }
}

// The names of three registers in the second half of their table.
fn upper_form(m: u16) -> Form
    requires { (100 ≤ m) × (m < 173) }
    ensures { result ≡ form_of (name_of m) }
{
    match m {
        0..=100 => Form::Bits(BitOp::Eor),
        101 => Form::Bits(BitOp::Bsl),
        102 => Form::Bits(BitOp::Bit),
        103 => Form::Bits(BitOp::Bif),
        104..=106 => lanes_at(LaneOp::Halving(HalvingOp::Hsub, Sign::Unsigned), m - 104),
        107..=110 => lanes_at(
            LaneOp::Saturating(SaturatingOp::Qsub, Sign::Unsigned),
            m - 107,
        ),
        111..=113 => lanes_at(LaneOp::Cgt(Sign::Unsigned), m - 111),
        114..=116 => lanes_at(LaneOp::Cge(Sign::Unsigned), m - 114),
        117..=132 => Form::Nothing,
        133..=135 => lanes_at(LaneOp::Max(Sign::Unsigned), m - 133),
        136..=138 => lanes_at(LaneOp::Min(Sign::Unsigned), m - 136),
        139..=144 => Form::Nothing,
        145..=148 => lanes_at(LaneOp::Sub, m - 145),
        149..=151 => lanes_at(LaneOp::Ceq, m - 149),
        152..=154 => lanes_at(LaneOp::Mls, m - 152),
        _ => Form::Nothing,
    }
}

// The names of shifts by a number, and of lanes that are extended.
fn shift_form(m: u16) -> Form
    requires { (173 ≤ m) × (m < 261) }
    ensures { result ≡ form_of (name_of m) }
{
    match m {
        0..=176 => Form::Shift(Direction::Right(Sign::Signed), width_at(m - 173)),
        177..=188 => Form::Nothing,
        189..=192 => Form::Shift(Direction::Left, width_at(m - 189)),
        193..=195 => Form::Shift(Direction::Narrow, width_at(m - 193)),
        196..=204 => Form::Nothing,
        205..=207 => Form::Shift(Direction::Long(Sign::Signed), width_at(m - 205)),
        208..=209 => Form::Nothing,
        210..=213 => Form::Shift(Direction::Right(Sign::Unsigned), width_at(m - 210)),
        214..=249 => Form::Nothing,
        250..=252 => Form::Shift(Direction::Long(Sign::Unsigned), width_at(m - 250)),
        253..=254 => Form::Nothing,
        255..=257 => Form::Extend(Sign::Signed, width_at(m - 255)),
        _ => Form::Extend(Sign::Unsigned, width_at(m - 258)),
    }
}

// The names of modified immediates.
fn constant_form(m: u16) -> Form
    requires { (261 ≤ m) × (m < 272) }
    ensures { result ≡ form_of (name_of m) }
{
    match m {
        261 => Form::Number(ConstantOp::Mov, Width::B32),
        262 => Form::Number(ConstantOp::Orr, Width::B32),
        263 => Form::Number(ConstantOp::Mov, Width::B16),
        264 => Form::Number(ConstantOp::Orr, Width::B16),
        265 => Form::Number(ConstantOp::Mov, Width::B8),
        266 => Form::Float,
        267 => Form::Number(ConstantOp::Mvn, Width::B32),
        268 => Form::Number(ConstantOp::Bic, Width::B32),
        269 => Form::Number(ConstantOp::Mvn, Width::B16),
        270 => Form::Number(ConstantOp::Bic, Width::B16),
        _ => Form::Number(ConstantOp::Mov, Width::B64),
    }
}

// The form of a mnemonic; a number that is none has no meaning.
pub fn form_of(m: u16) -> Form
    ensures { result ≡ form_of (name_of m) }
{
    if m < 100 {
        return lower_form(m);
    }
    if m < 173 {
        return upper_form(m);
    }
    if m < 261 {
        return shift_form(m);
    }
    if m < 272 {
        return constant_form(m);
    }
    if m < 312 {
        return lower_double(m);
    }
    if m < VMOV {
        return upper_double(m);
    }
    if m == VMOV {
        return Form::Copy;
    }
    Form::Nothing
}
