ghost use Rattle.policy.specs.Policies.{hanging as decided};
ghost use Rattle.std.proofs.Common.{rules};

use crate::policy::Policy;
use crate::question::{Answer, Question};

// A marked item stays on its line as long as the cursor is at most 63.
#[derive(Clone, Copy)]
pub struct Hanging;

impl Policy for Hanging {
    ghost answers = { λ _. decided };

    ghost keeps = { Prim.search rules };

    fn answer(&self, question: Question) -> Answer {
        if !question.mark {
            question.unmarked()
        } else if question.cursor <= 63 {
            Answer {
                column: question.least().max(question.cursor),
                breaks: false,
            }
        } else {
            Answer {
                column: question.least(),
                breaks: true,
            }
        }
    }
}
