// The mark: whether an operation moves a lane to an end of its range.
#![tactic(auto)]

ghost use Rattle.std.specs.Prelude.{◌≡◌, ◌+◌, ◌*◌, ◌≤◌};
ghost use Rattle.laws.specs.Choice.{either};
ghost use Rattle.lanes.specs.Promises.{lane_at};
ghost use Rattle.marks.specs.Moved.{lane_moved, some_moved, lanes_moved, moved_by};

use arithmetic::arith::Bits;
use arithmetic::whole::Place;
use insn::{Sign, Width};
use lanes::LaneOp;
use operations::Operation;
use saturating::SaturatingOp;

// Whether the lane at one place is moved.
fn lane_moved(op: SaturatingOp, s: Sign, p: Place, n: u64, m: u64) -> bool
    ensures { result ≡ lane_moved op s p.bits.count (lane_at p.bits.count p.i n) (lane_at p.bits.count p.i m) }
{
    saturating::moved(op, s, p.sources(n, m))
}

// Whether a saturating operation moves a lane of a word.
fn some_moved(op: SaturatingOp, s: Sign, w: Width, n: u64, m: u64) -> bool
    ensures { result ≡ some_moved 64 op s w n m }
{
    let b = Bits::from(w);
    (0..64 / b.count).any(
        |i|
            requires { b.count * i + b.count ≤ 64 }
        { lane_moved(op, s, Place { bits: b, i }, n, m) },
    )
}

// The same of any lane operation: no other moves one.
fn lanes_moved(op: LaneOp, w: Width, n: u64, m: u64) -> bool
    ensures { result ≡ lanes_moved 64 op w n m }
{
    match op {
        LaneOp::Saturating(o, s) => some_moved(o, s, w, n, m),
        _ => false,
    }
}

// The mark after an operation on doublewords, n and m the sources: what it was, or yes where a lane is moved.
pub fn mark_after(mark: bool, op: Operation, n: u64, m: u64) -> bool
    ensures { result ≡ either mark (moved_by 64 op n m) }
{
    if mark {
        return true;
    }
    match op {
        Operation::Lanes(o, w) => lanes_moved(o, w, n, m),
        Operation::Bits(_) => false,
        Operation::Constant(_, _) => false,
    }
}
