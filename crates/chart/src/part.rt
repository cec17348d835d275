ghost use Rattle.columns.specs.Mask.{Means};
ghost use Rattle.grammar.specs.Lawful.{Below};
ghost use Rattle.chart.specs.Chart.{Within, Known, under, inside};
ghost use Rattle.chart.specs.Readings.{Part};

use crate::chart::Chart;
use crate::stretch::Stretch;
use columns::mask::ColumnSet;
use grammar::grammar::Grammar;
use grammar::rule::Symbol;

impl<G: Grammar> Chart<'_, '_, G> {
    // The columns at which an item of that symbol can cover the stretch.
    pub(crate) fn part(&self, symbol: Symbol, s: Stretch) -> ColumnSet
        requires within { Within self.now.tokens.now s }
        requires below { Below (G.model self.now.grammar.now) symbol }
        requires known { inside self.now Known symbol s.from s.to }
        ensures { Means result.bits (under self.now Part symbol s.from s.to) }
    {
        match symbol {
            Symbol::Terminal(t) => {
                let token = self.tokens[s.from as usize];
                if s.to == s.from + 1 && token.terminal == t {
                    ColumnSet::only(token.column)
                } else {
                    ColumnSet::EMPTY
                }
            }
            Symbol::Nonterminal(b) => ColumnSet {
                bits: self.cells[self.place(b, s)],
            },
        }
    }
}
