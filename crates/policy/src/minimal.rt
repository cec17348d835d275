ghost use Rattle.policy.specs.Policies.{minimal as decided};
ghost use Rattle.std.proofs.Common.{rules};

use crate::policy::Policy;
use crate::question::{Answer, Question};

// Items stand as far left as they may, and a marked item opens a line.
#[derive(Clone, Copy)]
pub struct Minimal;

impl Policy for Minimal {
    ghost answers = { λ _. decided };

    ghost keeps = { Prim.search rules };

    fn answer(&self, question: Question) -> Answer {
        if question.mark {
            Answer {
                column: question.least(),
                breaks: true,
            }
        } else {
            question.unmarked()
        }
    }
}
