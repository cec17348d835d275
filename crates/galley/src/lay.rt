ghost use Rattle.std.specs.Prelude.{◌≡◌};
ghost use Rattle.layout.specs.Standing.{standing};
ghost use Rattle.galley.specs.Lays.{LaysBy};
ghost use Rattle.galley.specs.Stores.{front, room};

use crate::galley::Galley;
use crate::held::Held;
use crate::slip::Slip;
use crate::store::Store;
use faults::fault::Fault;
use grammar::grammar::Grammar;
use layout::lay_out::lay_out;
use layout::placement::Placement;
use layout::text::text_length;
use policy::policy::Policy;
use tree::piece::PieceRecord;

// Notes where pieces stand, as far as there are places.
fn place_all(pieces: &mut [PieceRecord], places: &[Placement])
    ensures { pieces.new ≡ standing pieces.old places.now }
{
    let mut places = places.iter();
    for piece in pieces.iter_mut() {
        let Some(place) = places.next() else { break };
        piece.column = place.column;
        piece.opens_line = place.opens_line;
    }
}

impl Store<'_, PieceRecord> {
    // Notes where the held pieces stand.
    fn place(&mut self, places: &[Placement])
        ensures used { self.new.used ≡ self.old.used }
        ensures room { room self.new ≡ room self.old }
        ensures front { front self.new ≡ standing (front self.old) places.now }
    {
        place_all(&mut self.memory[..self.used], places);
    }
}

impl Held<'_> {
    // Notes where the held pieces stand.
    fn place_pieces(&mut self, places: &[Placement])
        ensures bytes { self.new.bytes ≡ self.old.bytes }
        ensures nodes { self.new.nodes ≡ self.old.nodes }
        ensures pieces { front self.new.pieces ≡ standing (front self.old.pieces) places.now }
        ensures room { room self.new.pieces ≡ room self.old.pieces }
    {
        self.pieces.place(places);
    }
}

impl Galley<'_> {
    // Lays the tree out by a policy: the galley then keeps its text for the slip.
    pub fn lay<G: Grammar, P: Policy>(&mut self, g: &G, policy: &P) -> Result<Slip, Fault>
        ensures { LaysBy (G.Grammar.model g.now) (P.Policy.answers policy.now) self.old result self.new }
    {
        if self.laid.is_some() {
            return Err(Fault::AlreadyLaid);
        }
        if self.held.nodes.used == 0 {
            return Err(Fault::NoNode);
        }
        let layout = lay_out(g, policy, self.held.contents())?;
        self.held.place_pieces(layout.as_slice());
        let length = text_length(&self.held.contents());
        self.laid = Some(length);
        Ok(Slip {
            number: self.number,
            length,
        })
    }
}
