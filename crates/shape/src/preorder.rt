ghost use Rattle.std.specs.Prelude.{◌≡◌, ◌≤◌, true};
ghost use Rattle.shape.specs.Children.{one_tree, pieces_in};

use tree::node::Node;

// The nodes of one tree in preorder, over at most 128 pieces; or no nodes.
#[derive(Clone, Copy)]
pub struct Preorder<'a> {
    pub nodes: &'a [Node],
    ghost one: { one_tree nodes.now ≡ true },
    ghost few: { pieces_in nodes.now ≤ 128 },
}
