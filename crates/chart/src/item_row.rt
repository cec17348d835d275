ghost use Rattle.std.specs.Prelude.{◌≡◌, ◌+◌, ◌-◌, ◌<◌, ◌≤◌, List, [], ◌∷◌, length};
ghost use Rattle.columns.specs.Mask.{Means};
ghost use Rattle.grammar.specs.declared.rule.Item.{Item};
ghost use Rattle.chart.specs.Chart.{Within, AllBelow, Inner, Lone, under, inside};
ghost use Rattle.chart.specs.Cut.{row_begin};
ghost use Rattle.chart.specs.Readings.{Row};
ghost use Rattle.chart.specs.Waits.{waiting, Divided, Adds};

use crate::chart::Chart;
use crate::filled::FilledChart;
use crate::stretch::Stretch;
use crate::waiting::{Stack, Waiting};
use columns::mask::ColumnSet;
use grammar::grammar::Grammar;
use grammar::rule::{Item, Symbol};

// Items in a row below a node: one item, or one and those behind it.
pub(crate) trait ItemRow: Copy {
    ghost first: { Self → Item };

    ghost others: { Self → List Item };

    // The first place where they can begin behind another item.
    fn first_begin(self, s: Stretch) -> u8
        ensures value { result ≡ row_begin (first self ∷ others self) s.from s.to }
        ensures within { (s.from < result) × (result ≤ s.to) };

    // The columns of a node whose items they are, and divide the stretch.
    fn columns<G: Grammar>(self, chart: &Chart<'_, '_, G>, s: Stretch) -> ColumnSet
        requires within { Within chart.now.tokens.now s }
        requires below { under chart.now AllBelow (first self ∷ others self) }
        requires inner { inside chart.now Inner s.from s.to }
        requires lone { inside chart.now Lone (first self ∷ others self) s.from s.to }
        ensures { Means result.bits (under chart.now Row (first self ∷ others self) s.from s.to) };

    // Lets those that are nonterminals wait, the first on top: they are the items of a node at that column, and divide the stretch.
    // The first is as short as it can be, then the next, and each stands at its least column.
    // Column, stretch and stack go one by one, since each row divides another stretch, and only the stack is changed.
    fn divide<G: Grammar>(
        self,
        filled: &FilledChart<'_, '_, G>,
        column: u8,
        s: Stretch,
        stack: &mut Stack,
    )
        requires within { Within filled.now.chart.tokens.now s }
        requires below { under filled.now.chart AllBelow (first self ∷ others self) }
        requires some { under filled.now.chart Row (first self ∷ others self) s.from s.to column }
        requires free { length (waiting stack.old) + (s.to - s.from) ≤ 128 }
        ensures { Adds (waiting stack.old) (waiting stack.new)
            (under filled.now.chart Divided (first self ∷ others self) column s.from s.to) };
}

impl ItemRow for Item {
    ghost first = { λ x. x };

    ghost others = { λ x. [] };

    fn first_begin(self, s: Stretch) -> u8 {
        s.first_begin(self.symbol)
    }

    fn columns<G: Grammar>(self, chart: &Chart<'_, '_, G>, s: Stretch) -> ColumnSet {
        chart.part(self.symbol, s).node_columns(self.relation)
    }

    fn divide<G: Grammar>(
        self,
        filled: &FilledChart<'_, '_, G>,
        column: u8,
        s: Stretch,
        stack: &mut Stack,
    ) {
        if let Symbol::Nonterminal(symbol) = self.symbol {
            let column = filled
                .chart
                .part(self.symbol, s)
                .least(self.relation, column)
                .unwrap();
            stack.push(Waiting {
                symbol,
                column,
                stretch: s,
            });
        }
    }
}

impl<R: ItemRow> ItemRow for (Item, R) {
    ghost first = { λ row. row.0 };

    ghost others = { λ row. R.first row.1 ∷ R.others row.1 };

    fn first_begin(self, s: Stretch) -> u8 {
        s.from + 1
    }

    fn columns<G: Grammar>(self, chart: &Chart<'_, '_, G>, s: Stretch) -> ColumnSet {
        let (x, rest) = self;
        let mut all = ColumnSet::EMPTY;
        for cut in rest.first_begin(s)..s.past_end(x.symbol) {
            let front = chart.part(x.symbol, s.front(cut));
            if !front.is_empty() {
                all |= front.node_columns(x.relation) & rest.columns(chart, s.back(cut));
            }
        }
        all
    }

    fn divide<G: Grammar>(
        self,
        filled: &FilledChart<'_, '_, G>,
        column: u8,
        s: Stretch,
        stack: &mut Stack,
    ) {
        let (x, rest) = self;
        let cut = filled.cut(x, rest, column, s);
        rest.divide(filled, column, s.back(cut), stack);
        x.divide(filled, column, s.front(cut), stack);
    }
}
