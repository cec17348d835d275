ghost use Rattle.std.specs.Prelude.{◌≡◌, length};
ghost use Rattle.tree.specs.Pieces.{total};

use crate::piece::PieceRecord;

// The pieces of a tree that are still to come, with their bytes, which stand without gaps.
#[derive(Clone, Copy)]
pub struct Parts<'a> {
    pub(crate) pieces: &'a [PieceRecord],
    pub(crate) bytes: &'a [u8],
    ghost whole: { total pieces.now ≡ length bytes.now },
}

impl<'a> Iterator for Parts<'a> {
    ghost use Rattle.std.specs.Iterator.{YieldsFirstBy, item_count};
    ghost use Rattle.tree.specs.Parts.{part, parts_left};

    type Item = (&'a PieceRecord, &'a [u8]);

    ghost next_gives = { YieldsFirstBy part parts_left };

    ghost remaining = { item_count parts_left };

    fn next(&mut self) -> Option<(&'a PieceRecord, &'a [u8])> {
        let (piece, pieces) = self.pieces.split_first()?;
        let (own, bytes) = self.bytes.split_at(piece.length as usize);
        *self = Parts { pieces, bytes };
        Some((piece, own))
    }
}
