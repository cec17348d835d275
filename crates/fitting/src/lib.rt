#![tactic(auto)]

ghost use Rattle.fitting.specs.Answers.{AnswerReads, AnswerExact, AnswerBreaks};
ghost use Rattle.fitting.specs.Laws.{LaidFits, LayoutReads, OnlyDeep, MinimalExact, LinesBreak};

// Laws of laying out. Whatever the policy, the columns of a laid-out tree fit it, so that the tree is a reading of what was laid out.
// The minimal policy lays out every tree that some columns fit. Lines break where and only where they should.
pub fn laws()
    ensures fits { LaidFits }
    ensures reads { LayoutReads }
    ensures deep { OnlyDeep }
    ensures exact { MinimalExact }
    ensures breaks { LinesBreak }
{}

// The same laws of what laying out a held tree answers.
pub fn laws_of_answers()
    ensures reads { AnswerReads }
    ensures exact { AnswerExact }
    ensures breaks { AnswerBreaks }
{}
