// Steps that keep the step rules.
ghost use Rattle.std.specs.Prelude.{◌≡◌, true, false, MatchOption};
ghost use Rattle.steps.specs.Rules.{keeps};

use crate::Step;
use crate::rules::keeps_rules;

// A step that keeps the step rules.
#[derive(Clone, Copy)]
pub struct LawfulStep {
    pub step: Step,
    pub ghost kept: { keeps step ≡ true },
}

// The step, where it keeps the step rules.
pub fn lawful_step(step: Step) -> Option<LawfulStep>
    ensures { MatchOption result (keeps step ≡ false) (λ s. s.step ≡ step) }
{
    if keeps_rules(step) {
        Some(LawfulStep { step })
    } else {
        None
    }
}
