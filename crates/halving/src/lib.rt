// Halves of sums and differences of lanes, rounded down. The lanes are halved before they are added or subtracted, so that
// no number has more than 64 bits.
#![tactic(auto)]

ghost use Rattle.std.specs.Prelude.{◌≡◌, ◌<◌, pos, ◌+ℤ◌, ◌-ℤ◌};
ghost use Rattle.laws.specs.Signed.{modulo};
ghost use Rattle.arithmetic.specs.Whole.{read_as};
ghost use Rattle.halving.specs.Half.{half, exact_halving};

use arithmetic::whole::Sources;
use insn::Sign;

// A halving operation, by its instruction's name.
#[derive(Clone, Copy)]
pub enum HalvingOp {
    Hadd,
    Rhadd,
    Hsub,
}

// Half of x + y + c.
fn half_sum(s: Sign, l: Sources, c: u64) -> u64
    requires { c < 2 }
    ensures { result ≡ modulo l.bits.count (half (read_as s l.bits.count l.x +ℤ read_as s l.bits.count l.y +ℤ pos c)) }
{
    let halves = l.bits.sum(l.first().right(s, 1), l.second().right(s, 1));
    l.bits.sum(halves, (l.x % 2 + l.y % 2 + c) / 2)
}

// Half of x - y.
fn half_difference(s: Sign, l: Sources) -> u64
    ensures { result ≡ modulo l.bits.count (half (read_as s l.bits.count l.x -ℤ read_as s l.bits.count l.y)) }
{
    let halves = l
        .bits
        .difference(l.first().right(s, 1), l.second().right(s, 1));
    l.bits.difference(halves, (1 + l.y % 2 - l.x % 2) / 2)
}

// The half that an operation leaves, as a lane.
pub fn halved(op: HalvingOp, s: Sign, l: Sources) -> u64
    ensures { result ≡ modulo l.bits.count (exact_halving op (read_as s l.bits.count l.x) (read_as s l.bits.count l.y)) }
{
    match op {
        HalvingOp::Hadd => half_sum(s, l, 0),
        HalvingOp::Rhadd => half_sum(s, l, 1),
        HalvingOp::Hsub => half_difference(s, l),
    }
}
