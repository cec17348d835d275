ghost use Rattle.columns.specs.Mask.{Means};
ghost use Rattle.grammar.specs.Several.{listed};
ghost use Rattle.grammar.specs.Lawful.{Ordered};
ghost use Rattle.chart.specs.Chart.{Within, AllBelow, Inner, Upper, under, inside};
ghost use Rattle.chart.specs.Readings.{Row, ItemsOf, Derives};

use crate::chart::Chart;
use crate::item_row::ItemRow;
use crate::stretch::Stretch;
use columns::mask::ColumnSet;
use grammar::grammar::Grammar;
use grammar::rule::Items;

impl<G: Grammar> Chart<'_, '_, G> {
    // The columns of a node with nonterminal a whose items divide the stretch.
    pub(crate) fn row(&self, items: Items, a: u8, s: Stretch) -> ColumnSet
        requires within { Within self.now.tokens.now s }
        requires below { under self.now AllBelow (listed items) }
        requires ordered { Ordered a items }
        requires inner { inside self.now Inner s.from s.to }
        requires upper { inside self.now Upper a s.from s.to }
        ensures { Means result.bits (under self.now Row (listed items) s.from s.to) }
    {
        match items {
            Items::One(x) => x.columns(self, s),
            Items::Two(x, y) => (x, y).columns(self, s),
            Items::Three(x, y, z) => (x, (y, z)).columns(self, s),
        }
    }

    // The items of the rule of that number, if its left symbol is a.
    pub(crate) fn items_of(&self, a: u8, number: u8) -> Option<Items>
        ensures { under self.now ItemsOf a number result }
    {
        match self.grammar.rule(number) {
            Some(rule) if rule.left == a => Some(rule.items),
            _ => None,
        }
    }

    // The columns of a tree with nonterminal a on top over the stretch.
    pub(crate) fn cell(&self, a: u8, s: Stretch) -> ColumnSet
        requires within { Within self.now.tokens.now s }
        requires inner { inside self.now Inner s.from s.to }
        requires upper { inside self.now Upper a s.from s.to }
        ensures { Means result.bits (under self.now Derives a s.from s.to) }
    {
        let mut all = ColumnSet::EMPTY;
        // By number, as a grammar tells its rules.
        for number in 0..self.grammar.rules() {
            if let Some(items) = self.items_of(a, number) {
                all |= self.row(items, a, s);
            }
        }
        all
    }
}
