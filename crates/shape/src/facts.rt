// What is told of a node: its rule, the nonterminal on that rule's left, the number of the first piece that it covers,
// and how many pieces and nodes its tree has, itself among them.
#[derive(Clone, Copy)]
pub struct NodeFacts {
    pub rule: u8,
    pub left: u8,
    pub first_piece: usize,
    pub piece_count: usize,
    pub node_count: usize,
}
