ghost use Rattle.std.specs.Prelude.{◌≡◌, ◌≤◌, ◌∷◌, cond, length, replicate};
ghost use Rattle.layout.specs.Text as text;

use tree::piece::PieceRecord;

// How many spaces come before a piece where the line has reached a column.
// The column goes beside the piece, since the length of a text is counted without a writer that knows it.
pub(crate) fn spaces_before(reached: u16, piece: &PieceRecord) -> u16
    ensures lead { text.lead reached piece.now
        ≡ cond piece.now.opens_line (10 ∷ replicate result 32) (replicate result 32) }
    ensures few { result ≤ 255 }
{
    let column = piece.column as u16;
    if piece.opens_line {
        column
    } else {
        column.saturating_sub(reached)
    }
}

// How many bytes come before a piece where the line has reached a column.
pub(crate) fn lead_length(reached: u16, piece: &PieceRecord) -> u16
    ensures { (result ≡ length (text.lead reached piece.now)) × (result ≤ 256) }
{
    piece.opens_line as u16 + spaces_before(reached, piece)
}

// The column that the line has reached behind a piece.
pub(crate) fn reached_behind(piece: &PieceRecord) -> u16
    ensures { result ≡ text.reached piece.now }
{
    piece.column as u16 + piece.length as u16
}
