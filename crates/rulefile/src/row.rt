use crate::spelling::Spelling;
use crate::terminal::Terminal;
use columns::relation::Relation;
use grammar::several::Several;

// A symbol as a rule file mentions it: a nonterminal by its name, or a terminal.
#[derive(Clone, Copy)]
pub(crate) enum Mention {
    Nonterminal(Spelling),
    Terminal(Terminal),
}

// An item of a line.
// Not the grammar's with another symbol: a parameter for symbols would stand in every contract over a grammar.
#[derive(Clone, Copy)]
pub(crate) struct Entry {
    pub(crate) symbol: Mention,
    pub(crate) relation: Relation,
    pub(crate) mark: bool,
}

// The items of a line.
pub(crate) type Entries = Several<Entry>;

// A line of a rule file: the name on its left, and its items.
#[derive(Clone, Copy)]
pub(crate) struct Row {
    pub(crate) left: Spelling,
    pub(crate) entries: Entries,
}
