ghost use Rattle.std.specs.Prelude.{◌≡◌, true};
ghost use Rattle.rulefile.specs.Denoted.{listed, distinct};

use crate::spelling::Spelling;
use crate::terminal::Terminal;
use arrayvec::ArrayVec;
use grammar::rule::Rule;

// Terminals by number, at most 32, no two alike.
#[derive(Drop)]
pub struct Terminals {
    pub(crate) list: ArrayVec<Terminal, 32>,
    ghost once: { distinct (listed list.items) ≡ true },
}

// The nonterminals, at most 16, by the names that they have in the file, the terminals, and the rules, at most 64, each by number.
#[derive(Default, Drop)]
pub struct Table {
    pub(crate) names: ArrayVec<Spelling, 16>,
    pub(crate) terminals: Terminals,
    pub(crate) rules: ArrayVec<Rule, 64>,
}
