ghost use Rattle.std.specs.Prelude.{◌≡◌};
ghost use Rattle.grammar.specs.Model.{child_of, shape_of};

use crate::several::Several;
use columns::relation::Relation;

// What an item of a rule stands for, by its number.
#[derive(Clone, Copy)]
pub enum Symbol {
    Terminal(u8),
    Nonterminal(u8),
}

// What stands in memory where no symbol is.
// By hand: a derive's default case holds no value.
impl Default for Symbol {
    ghost use Rattle.std.specs.Prelude.{◌≡◌};
    ghost use Rattle.grammar.specs.declared.rule.Symbol.TheVariants.{Terminal};

    ghost is_default = { λ symbol. symbol ≡ Terminal 0 };

    fn default() -> Symbol {
        Symbol::Terminal(0)
    }
}

// One item of a rule: a symbol, how its column stands to the node's, and whether it carries a mark.
// A mark asks the policy to set the item off when a tree is laid out.
#[derive(Clone, Copy, Default)]
pub struct Item {
    pub symbol: Symbol,
    pub relation: Relation,
    pub mark: bool,
}

// The items of a rule.
pub type Items = Several<Item>;

// A rule: the nonterminal on its left, and its items.
#[derive(Clone, Copy, Default)]
pub struct Rule {
    pub left: u8,
    pub items: Items,
}

// How a node of a tree is expanded: the number of its rule, and the items of that rule.
#[derive(Clone, Copy)]
pub struct Expansion {
    pub rule: u8,
    pub items: Items,
}

// What an item covers in a tree: one piece, or a node with all that is below it.
#[derive(Clone, Copy, Default)]
pub enum Child {
    #[default]
    Piece,
    Node,
}

impl Symbol {
    // What an item with this symbol covers.
    pub fn child(&self) -> Child
        ensures { result ≡ child_of self.now }
    {
        match self {
            Symbol::Terminal(_) => Child::Piece,
            Symbol::Nonterminal(_) => Child::Node,
        }
    }
}

// What the items of a rule cover. By cases, since a map over them would ask of its caller that its closure may be called.
impl From<Items> for Several<Child> {
    ghost from_gives = { λ items shape. shape ≡ shape_of items };

    fn from(items: Items) -> Self {
        match items {
            Items::One(x) => Several::One(x.symbol.child()),
            Items::Two(x, y) => Several::Two(x.symbol.child(), y.symbol.child()),
            Items::Three(x, y, z) => {
                Several::Three(x.symbol.child(), y.symbol.child(), z.symbol.child())
            }
        }
    }
}
