ghost use Rattle.std.specs.Prelude.{◌≡◌, ◌≤◌, length};
ghost use Rattle.tree.specs.Pieces.{total};

use tree::piece::PieceRecord;

// How many bytes these pieces have.
pub(crate) fn sum_lengths(pieces: &[PieceRecord]) -> usize
    requires { length pieces.now ≤ 128 }
    ensures { result ≡ total pieces.now }
{
    pieces.iter().map(|piece| piece.length as usize).sum()
}
