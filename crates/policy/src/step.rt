ghost use Rattle.std.specs.Prelude.{◌≡◌, MatchResult};
ghost use Rattle.faults.specs.declared.fault.Fault.TheVariants.{StepWidth};
ghost use Rattle.policy.specs.Policies.{step as decided, Width};
ghost use Rattle.std.proofs.Common.{rules, arith};

use crate::policy::Policy;
use crate::question::{Answer, Question};
use faults::fault::Fault;

// A marked item stands a fixed width further in than its node and opens a line. The width is from 1 to 8.
#[derive(Clone, Copy)]
pub struct Step {
    width: u8,
    ghost allowed: { Width width },
}

impl Step {
    // The policy with that width; it refuses another than 1 to 8.
    pub fn new(width: u8) -> Result<Step, Fault>
        ensures { MatchResult result (λ s. (s.width ≡ width) × Width width) (λ f. (f ≡ StepWidth) × (Width width → ⊥)) }
    {
        if 1 <= width && width <= 8 {
            Ok(Step { width })
        } else {
            Err(Fault::StepWidth)
        }
    }
}

impl Policy for Step {
    ghost answers = { λ s. decided s.width };

    ghost keeps = { first_of (Prim.search rules, Prim.grind (arith, Self.row.coded.inj)) };

    fn answer(&self, question: Question) -> Answer {
        if question.mark {
            Answer {
                column: question.column.saturating_add(self.width),
                breaks: true,
            }
        } else {
            question.unmarked()
        }
    }
}
