use grammar::rule::Child;
use grammar::several::Several;

// What the items of a node cover, in order.
pub type Shape = Several<Child>;

// A node of a tree: its rule, the nonterminal on that rule's left, and what its items cover.
// Nodes stand in preorder, so that the list of rule numbers gives the tree, and not in boxes, since the engine has no heap.
#[derive(Clone, Copy, Default)]
pub struct Node {
    pub rule: u8,
    pub left: u8,
    pub shape: Shape,
}
