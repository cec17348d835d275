ghost use Rattle.std.specs.Prelude.{◌≡◌, ◌≤◌, length};
ghost use Rattle.tree.specs.Pieces.{total, longest};

use crate::node::Node;
use crate::parts::Parts;
use crate::piece::PieceRecord;

// A tree with its pieces, lent: the bytes of the pieces without gaps, the pieces, and the nodes in preorder.
#[derive(Clone, Copy)]
pub struct Contents<'a> {
    pub bytes: &'a [u8],
    pub pieces: &'a [PieceRecord],
    pub nodes: &'a [Node],
    ghost few: { length pieces.now ≤ 128 },
    ghost short: { longest pieces.now ≤ 32 },
    ghost whole: { total pieces.now ≡ length bytes.now },
}

impl<'a> Contents<'a> {
    ghost use Rattle.tree.specs.Parts.{parts, parts_left};

    // Each piece with its bytes, in the order of the text.
    pub fn parts(&self) -> Parts<'a>
        ensures { parts_left result ≡ parts self.now.bytes.now self.now.pieces.now }
    {
        Parts {
            pieces: self.pieces,
            bytes: self.bytes,
        }
    }
}
