ghost use Rattle.rulefile.specs.Spelled.{spelled};
ghost use Rattle.rulefile.specs.Views.{called, written, several, GivesName, GivesSymbol, GivesItem, GivesItems};

use crate::numbers;
use crate::row::{Entries, Entry, Mention};
use crate::spelling::Spelling;
use crate::table::Table;
use grammar::rule::{Item, Items, Symbol};

// None where there is no room; there is nothing else to say of it.
impl Table {
    // The number of the nonterminal with that name; none if there is no room for it.
    pub(crate) fn nonterminal(&mut self, name: Spelling) -> Option<u8>
        ensures { GivesName (spelled name) self.old result self.new }
    {
        numbers::number(&mut self.names, name)
    }

    // A mentioned symbol by its number; none if there is no room for it.
    fn symbol(&mut self, symbol: Mention) -> Option<Symbol>
        ensures { GivesSymbol (called symbol) self.old result self.new }
    {
        match symbol {
            Mention::Nonterminal(name) => Some(Symbol::Nonterminal(self.nonterminal(name)?)),
            Mention::Terminal(terminal) => Some(Symbol::Terminal(self.terminals.number(terminal)?)),
        }
    }

    // An item with the number of its symbol.
    fn item(&mut self, entry: Entry) -> Option<Item>
        ensures { GivesItem (written entry) self.old result self.new }
    {
        let symbol = self.symbol(entry.symbol)?;
        Some(Item {
            symbol,
            relation: entry.relation,
            mark: entry.mark,
        })
    }

    // The items of a line, numbered from the first to the last.
    // By cases, since each item changes the tables, and a closure that does so needs clauses of its own.
    pub(crate) fn items(&mut self, entries: Entries) -> Option<Items>
        ensures { GivesItems (several entries) self.old result self.new }
    {
        match entries {
            Entries::One(a) => Some(Items::One(self.item(a)?)),
            Entries::Two(a, b) => Some(Items::Two(self.item(a)?, self.item(b)?)),
            Entries::Three(a, b, c) => Some(Items::Three(
                self.item(a)?,
                self.item(b)?,
                self.item(c)?,
            )),
        }
    }
}
