ghost use Rattle.text.specs.Inside.{Inside, Inside-prop};
ghost use Rattle.text.specs.Tokens.{listed};

use text::token::Tokens;

// A text with its tokens, each of which lies within it.
#[derive(Clone, Copy)]
pub(crate) struct Source<'a> {
    pub(crate) text: &'a [u8],
    pub(crate) tokens: &'a Tokens,
    ghost inside: { Inside text.now (listed tokens.now) } by { Inside-prop text.now (listed tokens.now) },
}
