ghost use Rattle.std.specs.Prelude.{◌≡◌};
ghost use Rattle.policy.specs.Answers.{bound_of};
ghost use Rattle.policy.specs.Policies.{least_column, unmarked as settled};

use columns::relation::Relation;
use grammar::rule::Child;

// How the column that is asked for is bounded by the node's. An item with `=` is never asked about.
#[derive(Clone, Copy)]
pub enum Bound {
    Above,
    AtLeast,
    Any,
}

impl Bound {
    // The bound of an item with that relation; none for `=`.
    pub fn of(relation: Relation) -> Option<Bound>
        ensures { result ≡ bound_of relation }
    {
        match relation {
            Relation::Equal => None,
            Relation::Above => Some(Bound::Above),
            Relation::AtLeast => Some(Bound::AtLeast),
            Relation::Any => Some(Bound::Any),
        }
    }
}

// What a policy is told of an item.
#[derive(Clone, Copy)]
pub struct Question {
    // the column of the item's node
    pub column: u8,
    pub bound: Bound,
    pub mark: bool,
    pub child: Child,
    // the next free column of the line
    pub cursor: u8,
}

// The item's column, and whether the next piece opens a new line.
#[derive(Clone, Copy)]
pub struct Answer {
    pub column: u8,
    pub breaks: bool,
}

impl Question {
    // The least column that meets the bound.
    pub(crate) fn least(&self) -> u8
        ensures { result ≡ least_column self.now }
    {
        match self.bound {
            Bound::Above => self.column.saturating_add(1),
            Bound::AtLeast => self.column,
            Bound::Any => 0,
        }
    }

    // The answer to an item without a mark, the same under every built-in policy.
    pub(crate) fn unmarked(&self) -> Answer
        ensures { result ≡ settled self.now }
    {
        let least = self.least();
        let column = match self.child {
            Child::Piece if self.cursor <= 63 => least.max(self.cursor),
            Child::Piece | Child::Node => least,
        };
        Answer {
            column,
            breaks: false,
        }
    }
}
