ghost use Rattle.rulefile.specs.Views.{line, Adds};

use crate::row::Row;
use crate::table::Table;
use grammar::rule::Rule;

impl Table {
    // The rule of one line more, its symbols numbered from left to the last item.
    // None where there is no room; there is nothing else to say of it.
    pub(crate) fn add(&mut self, row: Row) -> Option<()>
        ensures { Adds (line row) self.old result self.new }
    {
        let left = self.nonterminal(row.left)?;
        let items = self.items(row.entries)?;
        let rule = Rule { left, items };
        self.rules.try_push(rule).ok()
    }
}
