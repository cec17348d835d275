use crate::rule::{Item, Items, Rule, Symbol};
use columns::relation::Relation;

// The nonterminals of the block language.
pub(crate) const NONTERMINALS: u8 = 7;

pub(crate) const SCRIPT: u8 = 0;

const BLOCK: u8 = 1;

const STMT: u8 = 2;

const HEAD: u8 = 3;

const ELSE: u8 = 4;

const LINE: u8 = 5;

const ARGS: u8 = 6;

// Its terminals: three classes and four words.
pub(crate) const TERMINALS: u8 = 7;

pub(crate) const NAME: u8 = 0;

pub(crate) const NUMBER: u8 = 1;

pub(crate) const QUOTE: u8 = 2;

pub(crate) const IF_WORD: u8 = 3;

pub(crate) const LOOP_WORD: u8 = 4;

pub(crate) const ELSE_WORD: u8 = 5;

pub(crate) const COLON: u8 = 6;

// The items of its rules, named by symbol and relation.
// Each written out: a constant cannot call a function.
const BLOCK_EQUAL: Item = Item {
    symbol: Symbol::Nonterminal(BLOCK),
    relation: Relation::Equal,
    mark: false,
};

const STMT_EQUAL: Item = Item {
    symbol: Symbol::Nonterminal(STMT),
    relation: Relation::Equal,
    mark: false,
};

const HEAD_EQUAL: Item = Item {
    symbol: Symbol::Nonterminal(HEAD),
    relation: Relation::Equal,
    mark: false,
};

const ELSE_EQUAL: Item = Item {
    symbol: Symbol::Nonterminal(ELSE),
    relation: Relation::Equal,
    mark: false,
};

const LINE_EQUAL: Item = Item {
    symbol: Symbol::Nonterminal(LINE),
    relation: Relation::Equal,
    mark: false,
};

const ARGS_EQUAL: Item = Item {
    symbol: Symbol::Nonterminal(ARGS),
    relation: Relation::Equal,
    mark: false,
};

const ARGS_ABOVE: Item = Item {
    symbol: Symbol::Nonterminal(ARGS),
    relation: Relation::Above,
    mark: false,
};

const BLOCK_ABOVE_MARKED: Item = Item {
    symbol: Symbol::Nonterminal(BLOCK),
    relation: Relation::Above,
    mark: true,
};

const IF_EQUAL: Item = Item {
    symbol: Symbol::Terminal(IF_WORD),
    relation: Relation::Equal,
    mark: false,
};

const LOOP_EQUAL: Item = Item {
    symbol: Symbol::Terminal(LOOP_WORD),
    relation: Relation::Equal,
    mark: false,
};

const ELSE_WORD_EQUAL: Item = Item {
    symbol: Symbol::Terminal(ELSE_WORD),
    relation: Relation::Equal,
    mark: false,
};

const COLON_ABOVE: Item = Item {
    symbol: Symbol::Terminal(COLON),
    relation: Relation::Above,
    mark: false,
};

const NAME_EQUAL: Item = Item {
    symbol: Symbol::Terminal(NAME),
    relation: Relation::Equal,
    mark: false,
};

const NAME_AT_LEAST: Item = Item {
    symbol: Symbol::Terminal(NAME),
    relation: Relation::AtLeast,
    mark: false,
};

const NUMBER_AT_LEAST: Item = Item {
    symbol: Symbol::Terminal(NUMBER),
    relation: Relation::AtLeast,
    mark: false,
};

const QUOTE_AT_LEAST: Item = Item {
    symbol: Symbol::Terminal(QUOTE),
    relation: Relation::AtLeast,
    mark: false,
};

// Its rules, each at its number.
pub(crate) static RULES: [Rule; 17] = [
    Rule {
        left: SCRIPT,
        items: Items::One(BLOCK_EQUAL),
    },
    Rule {
        left: BLOCK,
        items: Items::One(STMT_EQUAL),
    },
    Rule {
        left: BLOCK,
        items: Items::Two(STMT_EQUAL, BLOCK_EQUAL),
    },
    Rule {
        left: STMT,
        items: Items::One(LINE_EQUAL),
    },
    Rule {
        left: STMT,
        items: Items::Two(HEAD_EQUAL, BLOCK_ABOVE_MARKED),
    },
    Rule {
        left: STMT,
        items: Items::Three(HEAD_EQUAL, BLOCK_ABOVE_MARKED, ELSE_EQUAL),
    },
    Rule {
        left: ELSE,
        items: Items::Three(ELSE_WORD_EQUAL, COLON_ABOVE, BLOCK_ABOVE_MARKED),
    },
    Rule {
        left: HEAD,
        items: Items::Three(IF_EQUAL, ARGS_ABOVE, COLON_ABOVE),
    },
    Rule {
        left: HEAD,
        items: Items::Three(LOOP_EQUAL, ARGS_ABOVE, COLON_ABOVE),
    },
    Rule {
        left: LINE,
        items: Items::One(NAME_EQUAL),
    },
    Rule {
        left: LINE,
        items: Items::Two(NAME_EQUAL, ARGS_ABOVE),
    },
    Rule {
        left: ARGS,
        items: Items::One(NAME_AT_LEAST),
    },
    Rule {
        left: ARGS,
        items: Items::One(NUMBER_AT_LEAST),
    },
    Rule {
        left: ARGS,
        items: Items::One(QUOTE_AT_LEAST),
    },
    Rule {
        left: ARGS,
        items: Items::Two(NAME_AT_LEAST, ARGS_EQUAL),
    },
    Rule {
        left: ARGS,
        items: Items::Two(NUMBER_AT_LEAST, ARGS_EQUAL),
    },
    Rule {
        left: ARGS,
        items: Items::Two(QUOTE_AT_LEAST, ARGS_EQUAL),
    },
];
