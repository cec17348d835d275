ghost use Rattle.std.specs.Prelude.{◌≡◌, [], ◌∷◌, ◌++◌, length, replicate};
ghost use Rattle.layout.specs.Text.{lead, reached};
ghost use Rattle.layout.specs.Writers.{HasRoom, Wrote};

use crate::lead::{reached_behind, spaces_before};
use tree::piece::PieceRecord;

// Writes into a lent part of a buffer, from its front on.
// It keeps a position, since of a writer that kept only the rest of the part no clause could say what was written before it.
#[derive(Drop)]
pub struct LineWriter<'a> {
    pub(crate) out: &'a mut [u8],
    pub(crate) position: usize,
    // the column that the line has reached
    pub(crate) reached: u16,
}

impl LineWriter<'_> {
    // One byte.
    pub(crate) fn put(&mut self, byte: u8)
        requires { HasRoom self.old 1 }
        ensures { Wrote self.old self.new (byte ∷ []) }
    {
        self.out[self.position] = byte;
        self.position += 1;
    }

    // As many spaces.
    fn spaces(&mut self, count: usize)
        requires { HasRoom self.old count }
        ensures { Wrote self.old self.new (replicate count 32) }
    {
        let start = self.position;
        let end = start + count;
        self.out[start..end].fill(b' ');
        self.position = end;
    }

    // The bytes of a piece.
    fn bytes(&mut self, bytes: &[u8])
        requires { HasRoom self.old (length bytes.now) }
        ensures { Wrote self.old self.new bytes.now }
    {
        let start = self.position;
        let end = start + bytes.len();
        self.out[start..end].copy_from_slice(bytes);
        self.position = end;
    }

    // What comes before a piece.
    fn lead_in(&mut self, piece: &PieceRecord)
        requires { HasRoom self.old (length (lead self.old.reached piece.now)) }
        ensures { Wrote self.old self.new (lead self.old.reached piece.now) }
    {
        let spaces = spaces_before(self.reached, piece);
        if piece.opens_line {
            self.put(b'\n');
        }
        self.spaces(spaces as usize);
    }

    // A piece in its column.
    pub(crate) fn piece(&mut self, piece: &PieceRecord, bytes: &[u8])
        requires { HasRoom self.old (length (lead self.old.reached piece.now ++ bytes.now)) }
        ensures wrote { Wrote self.old self.new (lead self.old.reached piece.now ++ bytes.now) }
        ensures reached { self.new.reached ≡ reached piece.now }
    {
        self.lead_in(piece);
        self.bytes(bytes);
        self.reached = reached_behind(piece);
    }
}
