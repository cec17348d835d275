ghost use Rattle.std.specs.Prelude.{◌≡◌, ◌<◌, length};
ghost use Rattle.chart.specs.Chart.{Within};
ghost use Rattle.chart.specs.Place.{cell_place};

use crate::chart::Chart;
use crate::stretch::Stretch;
use grammar::grammar::Grammar;

impl<G: Grammar> Chart<'_, '_, G> {
    // All tokens.
    pub(crate) fn whole(&self) -> Stretch
        ensures from { result.from ≡ 0 }
        ensures to { result.to ≡ length self.now.tokens.now }
    {
        Stretch {
            from: 0,
            to: self.tokens.len() as u8,
        }
    }

    // Where the number for nonterminal a and that stretch stands.
    pub(crate) fn place(&self, a: u8, s: Stretch) -> usize
        requires low { a < (G.model self.now.grammar.now).nonterminals }
        requires within { Within self.now.tokens.now s }
        ensures value { result ≡ cell_place (G.model self.now.grammar.now).nonterminals a s.from s.to }
        ensures inside { result < length self.now.cells.now }
    {
        let n = self.grammar.nonterminals() as usize;
        let (i, j) = (s.from as usize, s.to as usize);
        (j * (j - 1) / 2 + i) * n + a as usize
    }
}
