use crate::frame::Frame;
use crate::node::Node;
use crate::terminals::Terminals;
use arrayvec::ArrayVec;
use grammar::grammar::Grammar;
use grammar::rule::{Expansion, Item};

// One item of a tree: the number of its node's rule, its node's column, its own number in the rule, the item,
// and the number of the first piece that it covers.
#[derive(Clone, Copy)]
pub struct Step {
    pub rule: u8,
    pub column: u8,
    pub index: u8,
    pub item: Item,
    pub piece: usize,
}

// A walk over the items of a tree in the order of the text.
#[derive(Drop)]
pub struct Walk<'a, G: Grammar> {
    pub(crate) grammar: &'a G,
    // the nodes to come, and the terminals of all pieces
    pub(crate) nodes: &'a [Node],
    pub(crate) terminals: &'a Terminals,
    // the nodes that have items to come, the innermost last
    pub(crate) waiting: ArrayVec<Frame, 128>,
    // the node that the walk came to last, while none of its items has come
    pub(crate) entered: Option<Expansion>,
    // the number of the piece that comes next, which each step tells
    pub(crate) piece: usize,
}
