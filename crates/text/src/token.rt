ghost use Rattle.std.specs.Prelude.{◌≤◌, length};

use arrayvec::ArrayVec;
use faults::fault::Position;

// A piece of a text that a grammar knows: where its bytes begin and how many they are, its line and column, and its terminal.
// Line and column apart from a Position: a token's column is a u8, as a set of columns takes it.
#[derive(Clone, Copy, Default)]
pub struct Token {
    pub start: u16,
    pub length: u8,
    pub line: u16,
    pub column: u8,
    pub terminal: u8,
}

// Where a token begins.
impl From<Token> for Position {
    ghost use Rattle.std.specs.Prelude.{◌≡◌};

    ghost from_gives = { λ token position. position ≡ record { line = token.line; column = token.column } };

    fn from(token: Token) -> Position {
        Position {
            line: token.line,
            column: token.column as u16,
        }
    }
}

// The tokens of a text, at most 128.
#[derive(Drop)]
pub struct Tokens {
    pub(crate) list: ArrayVec<Token, 128>,
    // ArrayVec tells its bound only to those who ask it; this tells it to all.
    ghost few: { length list.items ≤ 128 },
}
