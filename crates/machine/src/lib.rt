// The register machine: one instruction on its state, a file of 32 doublewords and a mark.
#![tactic(auto)]

ghost use Rattle.std.specs.Prelude.{◌≡◌};
ghost use Rattle.machine.specs.Answers.{outcome_answer};
ghost use Rattle.machine.specs.State.{state};
ghost use Rattle.machine.specs.Step.{step_insn, step_pair};

use effects::{State, perform, perform_unlike};
use insn::{Edition, Insn, Refusal};
use meanings::Action;

// The state after one instruction.
#[tactic(auto, unfolding(crate::specs::Step::step_by, crate::specs::State::acted))]
pub fn step_insn(s: State, i: Insn) -> Result<State, Refusal>
    ensures { outcome_answer result ≡ step_insn i (state s.file s.mark) }
{
    Ok(match meanings::meaning_of(i)? {
        Action::Does(op, r) => perform(s, op, r),
        Action::Doubles(op, w, r) => perform_unlike(s, op, w, r),
    })
}

// The state after one pair: its refusal in reading, under edition C, else that of its record.
#[tactic(auto, unfolding(crate::specs::Step::step_read))]
pub fn step(s: State, hw1: u16, hw2: u16) -> Result<State, Refusal>
    ensures { outcome_answer result ≡ step_pair hw1 hw2 (state s.file s.mark) }
{
    let i = decode::read(Edition::C, hw1, hw2, 0)?;
    step_insn(s, i)
}
