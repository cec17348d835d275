ghost use Rattle.std.specs.Prelude.{◌≡◌};
ghost use Rattle.galley.specs.Stores.{front};
ghost use Rattle.galley.specs.Tellings.{piece_told};
ghost use Rattle.shape.specs.Told.{Tells, ToldOnce};

use crate::galley::Galley;
use crate::piece_facts::PieceFacts;
use crate::sum::sum_lengths;
use shape::facts::NodeFacts;
use shape::preorder::Preorder;

impl Galley<'_> {
    // What is told of the node of that number; none past the end.
    pub fn node(&self, number: usize) -> Option<NodeFacts>
        ensures told { Tells (front self.now.held.nodes) number result }
        ensures once { ToldOnce }
    {
        let nodes = self.held.nodes.front();
        Preorder { nodes }.node(number)
    }

    // What is told of the piece of that number; none past the end.
    pub fn piece(&self, number: usize) -> Option<PieceFacts>
        ensures { result ≡ piece_told (front self.now.held.pieces) number }
    {
        let pieces = self.held.pieces.front();
        let piece = pieces.get(number)?;
        Some(PieceFacts {
            place: sum_lengths(&pieces[..number]),
            length: piece.length,
            terminal: piece.terminal,
        })
    }
}
