// What is wrong with a step, and the rows that are filled before it.
ghost use Rattle.std.specs.Prelude.{◌≡◌, ℕ, ◌%◌, ◌^◌, ◌<◌, IfOk};
ghost use Rattle.std.specs.Int.Bits.{bit_or};
ghost use Rattle.steps.specs.Faults.{every, step_fault};
ghost use Rattle.steps.specs.Own.{fault_at};
ghost use Rattle.steps.specs.Reads.{reads};
ghost use Rattle.steps.specs.Sets.{in_set};

use crate::Step;
use crate::lawful::{LawfulStep, lawful_step};
use crate::rules::values_of;
use insn::Refusal;

// Why a sheet is not translated, and the index of the step where the cause is in one.
#[derive(Clone, Copy, PartialEq, Eq)]
pub struct SheetError {
    pub cause: Refusal,
    pub step: Option<u64>,
}

// Whether a set has row r.
#[tactic(auto, unfolding(crate::specs::Sets::in_set))]
pub fn has_row(set: u16, r: u8) -> bool
    requires { r < 16 }
    ensures { result ≡ in_set set r }
{
    (set >> r) % 2 == 1
}

// A set with row r; r counts modulo 16.
pub fn with_row(set: u16, r: u8) -> u16
    ensures { result ≡ bit_or set (2 ^ (r % 16)) }
{
    set | 1u16 << (r % 16)
}

// Whether every row that a step reads is in a set. A byte with one value is not used.
#[tactic(auto, using(crate::proofs::Kept::bytes_small))]
fn reads_within(s: LawfulStep, set: u16) -> bool
    ensures { result ≡ every (in_set set) (reads s.step) }
{
    let s = s.step;
    let v = values_of(s.kind);
    let a = has_row(set, s.a);
    let b = has_row(set, s.b);
    let c = has_row(set, s.c);
    ((v.a < 2) | a) & (((v.b < 2) | b) & ((v.c < 2) | c))
}

// The step, which keeps the rules, or the refusal of it; a set has the rows that are filled before it.
pub fn step_fault(step: Step, filled: u16) -> Result<LawfulStep, Refusal>
    ensures fault { (i : ℕ) → fault_at i result ≡ step_fault (in_set filled) i step }
    ensures same { IfOk result (λ s. s.step ≡ step) }
{
    let Some(s) = lawful_step(step) else {
        return Err(Refusal::StepRule);
    };
    if !reads_within(s, filled) {
        return Err(Refusal::UnfilledRow);
    }
    Ok(s)
}
