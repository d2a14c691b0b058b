// Lane arithmetic on 64-bit words: one operation at every lane of 8, 16, 32 or 64 bits.
#![tactic(auto)]

ghost use Rattle.std.specs.Prelude.{◌≡◌, ℕ, ◌+◌, ◌*◌, ◌^◌, ◌<◌, ◌≤◌};
ghost use Rattle.lanes.specs.Lane.{lane_of, lanes_of};
ghost use Rattle.lanes.specs.Promises.{lane_at};

use arithmetic::arith::Bits;
use arithmetic::whole::{Place, Sources};
use halving::{HalvingOp, halved};
use insn::{Sign, Width};
use saturating::{SaturatingOp, saturated};

// A lane operation, by its instruction's name. A shift carries its amount, and reads n alone; a saturating or halving one
// carries which it is.
#[derive(Clone, Copy)]
pub enum LaneOp {
    Add,
    Sub,
    Mul,
    Mla,
    Mls,
    Max(Sign),
    Min(Sign),
    Cgt(Sign),
    Cge(Sign),
    Ceq,
    Tst,
    Shl(u32),
    Shr(Sign, u32),
    Saturating(SaturatingOp, Sign),
    Halving(HalvingOp, Sign),
}

// One operation on one lane: d of the old target, and those of the sources.
#[tactic(auto, using(arithmetic::proofs::Signs::le_not_lt), unfolding(crate::specs::Lane::lane_of, laws::specs::Signed::modulo))]
fn lane(op: LaneOp, d: u64, l: Sources) -> u64
    ensures { result ≡ lane_of op l.bits.count d l.x l.y }
{
    let w = l.bits;
    match op {
        LaneOp::Add => w.sum(l.x, l.y),
        LaneOp::Sub => w.difference(l.x, l.y),
        LaneOp::Mul => w.product(l.x, l.y),
        LaneOp::Mla => w.product_added(d, l.x, l.y),
        LaneOp::Mls => w.product_taken(d, l.x, l.y),
        LaneOp::Max(s) => l.greatest(s),
        LaneOp::Min(s) => l.least(s),
        LaneOp::Cgt(s) => w.ones_if(l.swapped().less(s)),
        LaneOp::Cge(s) => w.ones_if(!l.less(s)),
        LaneOp::Ceq => w.ones_if(l.x == l.y),
        LaneOp::Tst => w.ones_if(l.x & l.y != 0),
        LaneOp::Shl(k) => w.left(l.x, k),
        LaneOp::Shr(s, k) => l.first().right(s, k),
        LaneOp::Saturating(o, s) => saturated(o, s, l),
        LaneOp::Halving(o, s) => halved(o, s, l),
    }
}

// The operation at one place: d the old target, n and m the sources.
#[tactic(auto, using(crate::proofs::Promises::lane_below))]
fn at(op: LaneOp, p: Place, d: u64, n: u64, m: u64) -> u64
    ensures value { result ≡ lane_of op p.bits.count (lane_at p.bits.count p.i d) (lane_at p.bits.count p.i n) (lane_at p.bits.count p.i m) }
    ensures fits { result < 2 ^ p.bits.count }
{
    lane(op, p.number(d), p.sources(n, m))
}

// A word of so many lanes of w bits, lane i being what `of` gives of i.
pub fn gather<F: Fn(u32) -> u64>(w: Bits, count: u32, of: F) -> u64
    requires room { w.count * count ≤ 64 }
    requires callable { (i : ℕ) → i < count → F.pre of i }
    requires fits { (i r : ℕ) → i < count → F.post of i r → r < 2 ^ w.count }
    ensures below { result < 2 ^ (w.count * count) }
    ensures each { (i : ℕ) → i < count → F.post of i (lane_at w.count i result) }
{
    let mut out = 0;
    for i in 0..count {
        out += of(i) << (w.count * i);
    }
    out
}

// The operation at each lane of a word: d the old target, n and m the sources.
pub fn lanes(op: LaneOp, w: Width, d: u64, n: u64, m: u64) -> u64
    ensures { result ≡ lanes_of 64 op w d n m }
{
    let b = Bits::from(w);
    gather(
        b,
        64 / b.count,
        |i|
            requires { b.count * i + b.count ≤ 64 }
        { at(op, Place { bits: b, i }, d, n, m) },
    )
}
