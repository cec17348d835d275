ghost use Rattle.std.specs.Prelude.{◌≡◌, ◌+◌, ◌<◌, ◌≤◌, [], length, IfSome};
ghost use Rattle.pieces.specs.Kinds.{kind_of};
ghost use Rattle.pieces.specs.Pieces.{start};
ghost use Rattle.pieces.specs.Reader.{place, rest, Pause, Between, Hands, position_behind};

use crate::kind::Kind;
use crate::lexeme::Lexeme;
use crate::piece::Piece;
use crate::reader::PieceReader;
use faults::fault::{Fault, Position};

// A text has at most so many bytes.
const MAX_TEXT: usize = 12288;

// The position behind a space or a line end; none behind any other byte.
fn behind(position: Position, byte: u8) -> Option<Position>
    requires { (position.line < 65535) × (position.column < 65535) }
    ensures is { result ≡ position_behind (kind_of byte) position }
    ensures near { IfSome result (λ q. (q.line ≤ position.line + 1) × (q.column ≤ position.column + 1)) }
{
    match Kind::from(byte) {
        Kind::LineEnd => Some(Position {
            line: position.line + 1,
            column: 0,
        }),
        Kind::Separator => Some(Position {
            line: position.line,
            column: position.column + 1,
        }),
        Kind::Letter | Kind::Digit | Kind::Quote | Kind::Sign | Kind::Other => None,
    }
}

impl<'a> PieceReader<'a> {
    // A reader at the start of that text.
    pub fn new(text: &'a [u8]) -> PieceReader<'a>
        ensures { (result.text ≡ text.entry) × (place result ≡ start) }
    {
        PieceReader {
            text,
            offset: 0,
            position: Position { line: 1, column: 0 },
        }
    }

    // Passes over spaces and line ends.
    fn skip_blanks(&mut self)
        requires { length self.old.text.now ≤ 12288 }
        ensures text { self.new.text ≡ self.old.text }
        ensures reads { Between self.old [] self.new }
        ensures stands { Pause (rest self.new) }
    {
        let text = self.text;
        for byte in &text[self.offset..] {
            let Some(position) = behind(self.position, *byte) else {
                return;
            };
            self.position = position;
            self.offset += 1;
        }
    }

    // The next piece, or none at the end of the text. A text of more than 12,288 bytes hands out none.
    // No Iterator: a reader that refuses would refuse for ever, and a `for` asks for an end.
    pub fn next_piece(&mut self) -> Result<Option<Piece<'a>>, Fault>
        ensures { Hands self.old result self.new }
    {
        if self.text.len() > MAX_TEXT {
            return Err(Fault::TextTooLong);
        }
        self.skip_blanks();
        let text = self.text;
        let start = self.offset;
        let position = self.position;
        if start == text.len() {
            return Ok(None);
        }
        let rest = &text[start..];
        let Lexeme { class, length } = Lexeme::at_front(rest).ok_or(Fault::NoPiece(position))?;
        self.offset = start + length;
        self.position.column = position.column + length as u16;
        Ok(Some(Piece {
            bytes: &rest[0..length],
            class,
            start: start as u16,
            position,
        }))
    }
}
