ghost use Rattle.std.specs.Prelude.{◌≡◌, ◌≤◌, true};
ghost use Rattle.tree.specs.Pieces.{total, longest};
ghost use Rattle.shape.specs.Children.{one_tree, pieces_in};
ghost use Rattle.galley.specs.Stores.{front};

use crate::store::Store;
use tree::contents::Contents;
use tree::node::Node;
use tree::piece::PieceRecord;

// A tree with its pieces, or nothing: the pieces' bytes without gaps, the pieces, and the nodes in preorder.
#[derive(Drop)]
pub struct Held<'a> {
    pub(crate) bytes: Store<'a, u8>,
    pub(crate) pieces: Store<'a, PieceRecord>,
    pub(crate) nodes: Store<'a, Node>,
    ghost few: { pieces.used ≤ 128 },
    ghost short: { longest (front pieces) ≤ 32 },
    ghost whole: { total (front pieces) ≡ bytes.used },
    ghost tree: { one_tree (front nodes) ≡ true },
    ghost over: { pieces_in (front nodes) ≡ pieces.used },
}

impl Held<'_> {
    // All that is held, lent.
    pub(crate) fn contents(&self) -> Contents<'_>
        ensures bytes { result.bytes.now ≡ front self.now.bytes }
        ensures pieces { result.pieces.now ≡ front self.now.pieces }
        ensures nodes { result.nodes.now ≡ front self.now.nodes }
    {
        Contents {
            bytes: self.bytes.front(),
            pieces: self.pieces.front(),
            nodes: self.nodes.front(),
        }
    }
}
