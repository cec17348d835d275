ghost use Rattle.std.specs.Prelude.{◌<◌, length};
ghost use Rattle.chart.specs.Board.{Board};

use grammar::grammar::Grammar;
use text::token::Token;

// A chart under a grammar, over the tokens of a text: for each nonterminal and stretch of neighbouring tokens the set of columns
// that a tree with that nonterminal on top can have there. There is a token, and room for each of these numbers.
#[derive(Drop)]
pub(crate) struct Chart<'a, 'c, G: Grammar> {
    pub(crate) grammar: &'a G,
    pub(crate) tokens: &'a [Token],
    // the caller's masks of 64 columns
    pub(crate) cells: &'c mut [u64],
    ghost some: { 0 < length tokens.now },
    ghost board: { Board (G.model grammar.now) tokens.now cells.now },
}
