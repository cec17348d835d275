ghost use Rattle.galley.specs.Views.{Empty};

use crate::galley::Galley;
use crate::held::Held;
use crate::store::Store;
use tree::node::Node;
use tree::piece::PieceRecord;

impl<'a> Galley<'a> {
    // An empty galley with that number over these memories.
    pub fn new(
        number: u16,
        bytes: &'a mut [u8],
        pieces: &'a mut [PieceRecord],
        nodes: &'a mut [Node],
    ) -> Galley<'a>
        ensures { Empty number bytes.entry pieces.entry nodes.entry result }
    {
        let held = Held {
            bytes: Store::new(bytes),
            pieces: Store::new(pieces),
            nodes: Store::new(nodes),
        };
        Galley {
            number,
            held,
            laid: None,
        }
    }
}
