// What an operation does to a file of 32 doublewords, and to the mark.
#![tactic(auto)]

ghost use Rattle.std.specs.Prelude.{◌≡◌, ◌<◌, ◌≤◌};
ghost use Rattle.laws.specs.Choice.{either};
ghost use Rattle.double_lanes.specs.Double.{lengths_of};
ghost use Rattle.effects.specs.Effect.{effect, moves};
ghost use Rattle.effects.specs.Halves.{read_half, half_after};
ghost use Rattle.insn.specs.Widths.{bits_of};
ghost use Rattle.meanings.specs.Meaning.{act, double};
ghost use Rattle.meanings.specs.Own.{InFile, Within};
ghost use Rattle.tables.specs.Lengths.{lengths};

use double_lanes::{DoubleOp, lengths_of};
use insn::Width;
use marks::mark_after;
use meanings::{Numbers, Registers};
use operations::Operation;

// The machine's state: a file of 32 doublewords, and the mark, which is the manual's cumulative saturation bit.
#[derive(Clone, Copy, PartialEq, Eq)]
pub struct State {
    pub file: [u64; 32],
    pub mark: bool,
}

// The state after an operation on registers of one length, by doublewords: a quadword is two. The sources are read from
// the file before it.
pub fn perform(before: State, op: Operation, r: Registers) -> State
    requires { Within (lengths r.quad r.quad r.quad) r.d r.n r.m }
    ensures file { result.file ≡ effect (act op r) before.file }
    ensures mark { result.mark ≡ either before.mark (moves (act op r) before.file) }
{
    let d = r.d as usize;
    let n = r.n as usize;
    let m = r.m as usize;
    let file = &before.file;
    let mut after = before;
    after.file[d] = operations::value(op, file[d], file[n], file[m]);
    after.mark = mark_after(before.mark, op, file[n], file[m]);
    if r.quad {
        after.file[d + 1] = operations::value(op, file[d + 1], file[n + 1], file[m + 1]);
        after.mark = mark_after(after.mark, op, file[n + 1], file[m + 1]);
    }
    after
}

// The low half of a register for h = 0, the high one for 1: a doubleword of a quadword, 32 bits of a doubleword.
fn half_of(file: &[u64; 32], quad: bool, k: usize, h: usize) -> u64
    requires { InFile quad k × (h < 2) }
    ensures { result ≡ read_half quad file.now k h }
{
    if quad {
        file[k + h]
    } else {
        (file[k] >> (32 * h)) % 0x1_0000_0000
    }
}

// What an operation on registers of unlike length leaves in a half of its target.
fn half_after(file: &[u64; 32], op: DoubleOp, w: Width, r: Numbers, h: usize) -> u64
    requires { Within (lengths_of op) r.d r.n r.m × (h < 2) }
    ensures { result ≡ half_after op w r file.now h }
{
    let l = lengths_of(op);
    let d = half_of(file, l.d, r.d as usize, h);
    let n = half_of(file, l.n, r.n as usize, h);
    let m = half_of(file, l.m, r.m as usize, h);
    double_lanes::half(op, w, d, n, m)
}

// The state after an operation on registers of unlike length, by halves. The sources are read from the file before it.
pub fn perform_unlike(before: State, op: DoubleOp, w: Width, r: Numbers) -> State
    requires { Within (lengths_of op) r.d r.n r.m × (bits_of w ≤ 32) }
    ensures file { result.file ≡ effect (double op w r) before.file }
    ensures mark { result.mark ≡ before.mark }
{
    let l = lengths_of(op);
    let d = r.d as usize;
    let low = half_after(&before.file, op, w, r, 0);
    let high = half_after(&before.file, op, w, r, 1);
    let mut after = before;
    if l.d {
        after.file[d] = low;
        after.file[d + 1] = high;
    } else {
        after.file[d] = low + high * 0x1_0000_0000;
    }
    after
}
