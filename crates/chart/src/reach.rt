ghost use Rattle.std.specs.Prelude.{◌≡◌, ◌<◌, ◌≤◌, true, false, length, Some};
ghost use Rattle.std.specs.List.{slice_get};
ghost use Rattle.text.specs.declared.token.Token.{Token};
ghost use Rattle.chart.specs.Chart.{under};
ghost use Rattle.chart.specs.First.{Reads, Reach};
ghost use Rattle.chart.specs.Answer.{place_of};

use crate::filled::FilledChart;
use crate::stretch::Stretch;
use faults::fault::Position;
use grammar::grammar::Grammar;
use grammar::rule::Symbol;

impl<G: Grammar> FilledChart<'_, '_, G> {
    // The last token that is the first one, or that a reading of the tokens before it reaches.
    pub(crate) fn reach(&self, symbol: u8) -> u8
        requires low { symbol < (G.model self.now.chart.grammar.now).nonterminals }
        ensures { under self.now.chart Reach symbol (length self.now.chart.tokens.now) result }
    {
        (1..self.chart.tokens.len() as u8)
            .rev()
            .find(|&end| self.reads(symbol, end))
            .unwrap_or(0)
    }

    // Whether some reading of the tokens before that one reaches it.
    fn reads(&self, symbol: u8, end: u8) -> bool
        requires low { symbol < (G.model self.now.chart.grammar.now).nonterminals }
        requires within { (0 < end) × (end ≤ length self.now.chart.tokens.now) }
        ensures yes { result ≡ true → under self.now.chart Reads symbol end }
        ensures no { result ≡ false → under self.now.chart Reads symbol end → ⊥ }
    {
        let front = Stretch { from: 0, to: end };
        !self
            .chart
            .part(Symbol::Nonterminal(symbol), front)
            .is_empty()
    }

    // Where that token begins.
    pub(crate) fn position(&self, token: u8) -> Position
        requires { token < length self.now.chart.tokens.now }
        ensures { (t : Token) × (slice_get self.now.chart.tokens.now token ≡ Some t) × (result ≡ place_of t) }
    {
        Position::from(self.chart.tokens[token as usize])
    }
}
