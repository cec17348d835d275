ghost use Rattle.std.specs.Prelude.{◌≡◌, ◌≤◌};
ghost use Rattle.policy.specs.Answers.{Keeps};
ghost use Rattle.policy.specs.declared.question.Question.{Question as Asked};
ghost use Rattle.policy.specs.declared.question.Answer.{Answer as Answered};

use crate::question::{Answer, Question};

// A policy decides where items go. It is one function from questions to answers, and its columns meet the relation.
pub trait Policy {
    ghost answers: { Self → Asked → Answered };

    // The answer to that question.
    fn answer(&self, question: Question) -> Answer
        ensures { result ≡ answers self.now question };

    ghost keeps: { (p : Self) (q : Asked) → q.column ≤ 63 → q.cursor ≤ 96 → Keeps q (answers p q) };
}
