ghost use Rattle.std.specs.Prelude.{◌≡◌, ◌<◌, true, false, ◌∷◌, Some as Is};
ghost use Rattle.chart.specs.Chart.{Within, AllBelow, under};
ghost use Rattle.chart.specs.Readings.{Row, ItemsOf};
ghost use Rattle.chart.specs.First.{LowestRule, Shortest, CutAt};
ghost use Rattle.chart.specs.Waits.{Due};

use crate::filled::FilledChart;
use crate::item_row::ItemRow;
use crate::stretch::Stretch;
use crate::waiting::Waiting;
use grammar::grammar::Grammar;
use grammar::rule::{Expansion, Item};

impl<G: Grammar> FilledChart<'_, '_, G> {
    // The lowest rule that can be completed at a node that waits.
    pub(crate) fn lowest_rule(&self, next: Waiting) -> Expansion
        requires due { under self.now.chart Due next }
        ensures lowest { under self.now.chart LowestRule next.symbol next.stretch.from next.stretch.to next.column result.rule }
        ensures items { under self.now.chart ItemsOf next.symbol result.rule (Is result.items) }
    {
        // By number, as a grammar tells its rules.
        for number in 0..self.chart.grammar.rules() {
            if let Some(items) = self.chart.items_of(next.symbol, number) {
                let columns = self.chart.row(items, next.symbol, next.stretch);
                if columns.has(next.column) {
                    return Expansion {
                        rule: number,
                        items,
                    };
                }
            }
        }
        unreachable()
    }

    // The end of the shortest first item, with which the others can be completed.
    pub(crate) fn cut<R: ItemRow>(&self, x: Item, rest: R, column: u8, s: Stretch) -> u8
        requires within { Within self.now.chart.tokens.now s }
        requires below { under self.now.chart AllBelow (x ∷ R.first rest ∷ R.others rest) }
        requires some { under self.now.chart Row (x ∷ R.first rest ∷ R.others rest) s.from s.to column }
        ensures within { (s.from < result) × (result < s.to) }
        ensures first { under self.now.chart Shortest x (R.first rest ∷ R.others rest) s.from s.to column result }
    {
        (rest.first_begin(s)..s.past_end(x.symbol))
            .find(|&cut| self.can_cut(x, rest, column, s, cut))
            .unwrap()
    }

    // Whether the items of a node at that column can divide the stretch so that the first one ends at the cut.
    fn can_cut<R: ItemRow>(&self, x: Item, rest: R, column: u8, s: Stretch, cut: u8) -> bool
        requires within { Within self.now.chart.tokens.now s }
        requires below { under self.now.chart AllBelow (x ∷ R.first rest ∷ R.others rest) }
        requires inside { (s.from < cut) × (cut < s.to) }
        ensures yes { result ≡ true → under self.now.chart CutAt x (R.first rest ∷ R.others rest) s.from s.to column cut }
        ensures no { result ≡ false → under self.now.chart CutAt x (R.first rest ∷ R.others rest) s.from s.to column cut → ⊥ }
    {
        let front = x.columns(&self.chart, s.front(cut));
        let back = rest.columns(&self.chart, s.back(cut));
        (front & back).has(column)
    }
}
