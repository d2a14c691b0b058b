// Operations between lanes of w bits and lanes of 2w bits: a doubleword has lanes of w bits, and a quadword as many of 2w.
#![tactic(auto)]

ghost use Rattle.std.specs.Prelude.{◌≡◌, ◌+◌, ◌*◌, ◌^◌, ◌<◌, ◌≤◌, pos, None, IfSome};
ghost use Rattle.std.specs.Int.Signed.{shr_z};
ghost use Rattle.laws.specs.Signed.{modulo};
ghost use Rattle.insn.specs.Widths.{bits_of};
ghost use Rattle.double_lanes.specs.Double.{shape_of, lengths_of, lane_bits, exact_long, exact_wide, exact_narrow};
ghost use Rattle.double_lanes.specs.Halves.{nth_lane, half_of};

use arithmetic::arith::Bits;
use arithmetic::whole::Place;
use insn::{Sign, Width};
use lanes::gather;
use tables::DiffShape;
use tables::lengths::{Lengths, of_shape};

// What makes lanes of 2w bits from lanes of w bits, by its instruction's name. A shift carries its amount; it and a move
// read the first source alone.
#[derive(Clone, Copy)]
pub enum LongOp {
    Add,
    Sub,
    Mul,
    Mla,
    Mls,
    Mov,
    Shl(u32),
}

// What makes lanes of 2w bits from lanes of 2w and of w bits.
#[derive(Clone, Copy)]
pub enum WideOp {
    Add,
    Sub,
}

// What makes lanes of w bits from lanes of 2w bits: the low half of a shifted lane, the high half of a sum or difference.
#[derive(Clone, Copy)]
pub enum NarrowOp {
    Shr(u32),
    Add,
    Sub,
}

// An operation by its shape, with the sign by which lanes of w bits are extended.
#[derive(Clone, Copy)]
pub enum DoubleOp {
    Long(LongOp, Sign),
    Wide(WideOp, Sign),
    Narrow(NarrowOp),
}

fn shape_of(op: DoubleOp) -> DiffShape
    ensures { result ≡ shape_of op }
{
    match op {
        DoubleOp::Long(_, _) => DiffShape::Long,
        DoubleOp::Wide(_, _) => DiffShape::Wide,
        DoubleOp::Narrow(_) => DiffShape::Narrow,
    }
}

// Which of the registers are quadwords.
pub fn lengths_of(op: DoubleOp) -> Lengths
    ensures { result ≡ lengths_of op }
{
    of_shape(shape_of(op))
}

// The bits of a lane, and twice as many.
#[derive(Clone, Copy)]
struct Widths {
    single: Bits,
    double: Bits,
    ghost twice: { double.count ≡ 2 * single.count },
}

impl Widths {
    // Those of a width, where twice as many bits are in a word.
    fn new(w: Width) -> Option<Widths>
        ensures some { IfSome result (λ b. b.single.count ≡ bits_of w) }
        ensures none { result ≡ None → 32 < bits_of w }
    {
        let single = Bits::from(w);
        if 32 < single.count {
            return None;
        }
        let double = Bits {
            count: 2 * single.count,
        };
        Some(Widths { single, double })
    }

    // The bits of a lane, by the register that it is in.
    fn of(self, quad: bool) -> Bits
        ensures { result.count ≡ lane_bits quad self.single.count }
    {
        if quad { self.double } else { self.single }
    }
}

// A long lane, of v bits, from numbers that are the sources modulo 2^v.
#[tactic(auto, unfolding(laws::specs::Signed::modulo))]
fn long_lane(op: LongOp, v: Bits, d: u64, x: u64, y: u64) -> u64
    ensures { result ≡ modulo v.count (exact_long op (pos d) (pos x) (pos y)) }
{
    match op {
        LongOp::Add => v.sum(x, y),
        LongOp::Sub => v.difference(x, y),
        LongOp::Mul => v.product(x, y),
        LongOp::Mla => v.product_added(d, x, y),
        LongOp::Mls => v.product_taken(d, x, y),
        LongOp::Mov => v.cut(x),
        LongOp::Shl(k) => v.left(x, k),
    }
}

// The same, where the first source has v bits itself.
#[tactic(auto, unfolding(laws::specs::Signed::modulo))]
fn wide_lane(op: WideOp, v: Bits, x: u64, y: u64) -> u64
    ensures { result ≡ modulo v.count (exact_wide op (pos x) (pos y)) }
{
    match op {
        WideOp::Add => v.sum(x, y),
        WideOp::Sub => v.difference(x, y),
    }
}

// The low w bits of what a right shift by k leaves of x.
fn kept(w: Bits, x: u64, k: u32) -> u64
    ensures { result ≡ modulo w.count (shr_z (pos x) (2 ^ k)) }
{
    if k < 64 { w.cut(x >> k) } else { 0 }
}

// A lane of w bits, from lanes of 2w bits.
fn narrow_lane(op: NarrowOp, w: Widths, n: u64, m: u64) -> u64
    ensures { result ≡ modulo w.single.count (exact_narrow op w.single.count (pos n) (pos m)) }
{
    match op {
        NarrowOp::Shr(k) => kept(w.single, n, k),
        NarrowOp::Add => kept(w.single, w.double.sum(n, m), w.single.count),
        NarrowOp::Sub => kept(w.single, w.double.difference(n, m), w.single.count),
    }
}

// The operation at lane i: d the old target, n and m the sources.
fn nth(op: DoubleOp, w: Widths, i: u32, d: u64, n: u64, m: u64) -> u64
    requires { w.single.count * i + w.single.count ≤ 32 }
    ensures { result ≡ nth_lane op w.single.count i d n m }
{
    let p = Place { bits: w.single, i };
    let q = Place { bits: w.double, i };
    match op {
        DoubleOp::Long(o, s) => {
            let x = p.lane(n).extend(s, w.double);
            let y = p.lane(m).extend(s, w.double);
            long_lane(o, w.double, q.number(d), x, y)
        }
        DoubleOp::Wide(o, s) => wide_lane(o, w.double, q.number(n), p.lane(m).extend(s, w.double)),
        DoubleOp::Narrow(o) => narrow_lane(o, w, q.number(n), q.number(m)),
    }
}

// The operation at each lane of one half of the registers: d of the old target, n and m of the sources. Of a doubleword's
// half the low 32 bits are read, and such a target's half has no more.
pub fn half(op: DoubleOp, w: Width, d: u64, n: u64, m: u64) -> u64
    ensures { result ≡ half_of op w d n m }
{
    match Widths::new(w) {
        Some(b) => gather(
            b.of(lengths_of(op).d),
            32 / b.single.count,
            |i| nth(op, b, i, d, n, m),
        ),
        None => 0,
    }
}
