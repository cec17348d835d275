ghost use Rattle.std.specs.Prelude.{◌≡◌, ◌<◌, ◌≤◌};
ghost use Rattle.chart.specs.Cut.{first_begin, past_end};

use grammar::rule::Symbol;

// A stretch of neighbouring tokens, not empty: those from `from` up to `to`, among at most 128.
// That it ends among a chart's tokens is asked beside it: if it held the chart, each contract would have to say that it is the same one.
#[derive(Clone, Copy)]
pub(crate) struct Stretch {
    pub(crate) from: u8,
    pub(crate) to: u8,
    ghost some: { from < to },
    ghost short: { to ≤ 128 },
}

// A stretch of one token, for the places of a stack that are not in use. By hand, since a derive is refused over a ghost field.
impl Default for Stretch {
    fn default() -> Self {
        Stretch { from: 0, to: 1 }
    }
}

impl Stretch {
    // What is in front of that cut.
    pub(crate) fn front(self, cut: u8) -> Stretch
        requires { (self.from < cut) × (cut < self.to) }
        ensures from { result.from ≡ self.from }
        ensures to { result.to ≡ cut }
    {
        Stretch {
            from: self.from,
            to: cut,
        }
    }

    // What is behind that cut.
    pub(crate) fn back(self, cut: u8) -> Stretch
        requires { (self.from < cut) × (cut < self.to) }
        ensures from { result.from ≡ cut }
        ensures to { result.to ≡ self.to }
    {
        Stretch {
            from: cut,
            to: self.to,
        }
    }

    // The first place where an item of that symbol, which goes up to the end, can begin behind another.
    pub(crate) fn first_begin(self, symbol: Symbol) -> u8
        ensures value { result ≡ first_begin symbol self.from self.to }
        ensures within { (self.from < result) × (result ≤ self.to) }
    {
        match symbol {
            Symbol::Terminal(_) => (self.from + 1).max(self.to - 1),
            Symbol::Nonterminal(_) => self.from + 1,
        }
    }

    // One past the last place where an item of that symbol from the beginning on can end before the end.
    pub(crate) fn past_end(self, symbol: Symbol) -> u8
        ensures value { result ≡ past_end symbol self.from self.to }
        ensures within { result ≤ self.to }
    {
        match symbol {
            Symbol::Terminal(_) => self.to.min(self.from + 2),
            Symbol::Nonterminal(_) => self.to,
        }
    }
}
