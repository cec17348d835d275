ghost use Rattle.shape.specs.Told.{Tells, ToldOnce};

use crate::count::{count_nodes, count_path, count_pieces};
use crate::facts::NodeFacts;
use crate::preorder::Preorder;

impl Preorder<'_> {
    // The facts of the node of that number; none past the end.
    pub fn node(&self, number: usize) -> Option<NodeFacts>
        ensures told { Tells self.now.nodes.now number result }
        ensures once { ToldOnce }
    {
        let node = self.nodes.get(number)?;
        let (before, from) = self.nodes.split_at(number);
        let node_count = count_nodes(from);
        Some(NodeFacts {
            rule: node.rule,
            left: node.left,
            first_piece: count_path(before).pieces,
            piece_count: count_pieces(&from[..node_count]),
            node_count,
        })
    }
}
