ghost use Rattle.std.specs.Prelude.{◌≡◌};
ghost use Rattle.tree.specs.Walks.{slot_of};
ghost use Rattle.layout.specs.Questions.{Settles, answer_of};

use faults::fault::Fault;
use policy::policy::Policy;
use policy::question::{Answer, Bound, Question};
use tree::walk::Step;

// The column that an item takes and whether it asks for a break.
fn answer<P: Policy>(policy: &P, step: &Step, cursor: u8) -> Answer
    ensures { result ≡ answer_of (P.answers policy.now) cursor (slot_of step.now) }
{
    let Some(bound) = Bound::of(step.item.relation) else {
        return Answer {
            column: step.column,
            breaks: false,
        };
    };
    let child = step.item.symbol.child();
    policy.answer(Question {
        column: step.column,
        bound,
        mark: step.item.mark,
        child,
        cursor,
    })
}

// The same, refused where the column is above 63.
pub(crate) fn settle<P: Policy>(policy: &P, step: &Step, cursor: u8) -> Result<Answer, Fault>
    ensures { Settles (answer_of (P.answers policy.now) cursor (slot_of step.now)) step.now result }
{
    let answer = answer(policy, step, cursor);
    if answer.column > 63 {
        return Err(Fault::TooDeep {
            rule: step.rule,
            item: step.index,
        });
    }
    Ok(answer)
}
