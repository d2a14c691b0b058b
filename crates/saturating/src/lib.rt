// Sums and differences that stop at the ends of a lane's range. They are tested before they are taken, so that no number
// has more than 64 bits.
#![tactic(auto)]

ghost use Rattle.std.specs.Prelude.{◌≡◌, pos, ◌+ℤ◌, ◌-ℤ◌};
ghost use Rattle.std.specs.Int.Signed.{lt_z};
ghost use Rattle.laws.specs.Signed.{modulo};
ghost use Rattle.arithmetic.specs.Whole.{read_as};
ghost use Rattle.saturating.specs.Range.{lowest, highest, clamp, outside, exact_saturating};

use arithmetic::arith::Bits;
use arithmetic::whole::Sources;
use insn::Sign;

// A saturating operation, one that stops at the ends of the range, by its instruction's name.
#[derive(Clone, Copy)]
pub enum SaturatingOp {
    Qadd,
    Qsub,
}

// The highest number of the range, as a lane.
fn highest(s: Sign, w: Bits) -> u64
    ensures { result ≡ modulo w.count (highest s w.count) }
{
    match s {
        Sign::Unsigned => w.ones(),
        Sign::Signed => w.ones() / 2,
    }
}

// The lowest number of the range, as a lane.
fn lowest(s: Sign, w: Bits) -> u64
    ensures { result ≡ modulo w.count (lowest s w.count) }
{
    match s {
        Sign::Unsigned => 0,
        Sign::Signed => w.ones() / 2 + 1,
    }
}

// Whether x + y is above the range: neither is negative, and the room above y is less than x.
fn sum_above(s: Sign, l: Sources) -> bool
    ensures { result ≡ lt_z (highest s l.bits.count) (read_as s l.bits.count l.x +ℤ read_as s l.bits.count l.y) }
{
    let t = highest(s, l.bits);
    if t < l.x {
        return false;
    }
    if t < l.y {
        return false;
    }
    t - l.y < l.x
}

// Whether x + y is below the range: both are negative, and y is farther below 0 than x above the lowest number.
fn sum_below(s: Sign, l: Sources) -> bool
    ensures { result ≡ lt_z (read_as s l.bits.count l.x +ℤ read_as s l.bits.count l.y) (lowest s l.bits.count) }
{
    let t = highest(s, l.bits);
    if l.x <= t {
        return false;
    }
    if l.y <= t {
        return false;
    }
    l.x - t - 1 <= l.bits.ones() - l.y
}

// Whether x - y is above the range: x is not negative, y is, and x is at least as far above 0 as y above the lowest number.
fn difference_above(s: Sign, l: Sources) -> bool
    ensures { result ≡ lt_z (highest s l.bits.count) (read_as s l.bits.count l.x -ℤ read_as s l.bits.count l.y) }
{
    let t = highest(s, l.bits);
    if t < l.x {
        return false;
    }
    if l.y <= t {
        return false;
    }
    l.y - t - 1 <= l.x
}

// Whether x - y is below the range: y is not negative, and x is less far above the lowest number than y above 0.
fn difference_below(s: Sign, l: Sources) -> bool
    ensures { result ≡ lt_z (read_as s l.bits.count l.x -ℤ read_as s l.bits.count l.y) (lowest s l.bits.count) }
{
    let t = highest(s, l.bits);
    if t < l.y {
        return false;
    }
    if t < l.x {
        return l.x - t - 1 < l.y;
    }
    l.x + lowest(s, l.bits) < l.y
}

// Whether the exact result is above the range.
fn above(op: SaturatingOp, s: Sign, l: Sources) -> bool
    ensures { result ≡ lt_z (highest s l.bits.count) (exact_saturating op (read_as s l.bits.count l.x) (read_as s l.bits.count l.y)) }
{
    match op {
        SaturatingOp::Qadd => sum_above(s, l),
        SaturatingOp::Qsub => difference_above(s, l),
    }
}

// Whether the exact result is below the range.
fn below(op: SaturatingOp, s: Sign, l: Sources) -> bool
    ensures { result ≡ lt_z (exact_saturating op (read_as s l.bits.count l.x) (read_as s l.bits.count l.y)) (lowest s l.bits.count) }
{
    match op {
        SaturatingOp::Qadd => sum_below(s, l),
        SaturatingOp::Qsub => difference_below(s, l),
    }
}

// The lowest w bits of the exact result, from the lanes as numbers from 0.
#[tactic(auto, unfolding(laws::specs::Signed::modulo))]
fn wrapped(op: SaturatingOp, l: Sources) -> u64
    ensures { result ≡ modulo l.bits.count (exact_saturating op (pos l.x) (pos l.y)) }
{
    match op {
        SaturatingOp::Qadd => l.bits.sum(l.x, l.y),
        SaturatingOp::Qsub => l.bits.difference(l.x, l.y),
    }
}

// The exact result as a lane, moved to the nearer end of the range when outside it.
pub fn saturated(op: SaturatingOp, s: Sign, l: Sources) -> u64
    ensures { result ≡ modulo l.bits.count (clamp s l.bits.count (exact_saturating op (read_as s l.bits.count l.x) (read_as s l.bits.count l.y))) }
{
    if below(op, s, l) {
        return lowest(s, l.bits);
    }
    if above(op, s, l) {
        return highest(s, l.bits);
    }
    wrapped(op, l)
}

// Whether the exact result is outside the range, so that it is moved.
pub fn moved(op: SaturatingOp, s: Sign, l: Sources) -> bool
    ensures { result ≡ outside s l.bits.count (exact_saturating op (read_as s l.bits.count l.x) (read_as s l.bits.count l.y)) }
{
    if below(op, s, l) {
        return true;
    }
    above(op, s, l)
}
