ghost use Rattle.std.specs.Prelude.{◌≡◌};
ghost use Rattle.tree.specs.Terminals.{Named, listed};

use crate::contents::Contents;
use crate::terminals::Terminals;
use arrayvec::ArrayVec;
use faults::fault::Fault;
use grammar::grammar::Grammar;

impl Terminals {
    // The terminals that a grammar gives the pieces; refused where a piece has none.
    pub fn of<G: Grammar>(grammar: &G, contents: &Contents) -> Result<Terminals, Fault>
        ensures { Named (G.model grammar.now) contents.now.bytes.now
            contents.now.pieces.now result }
    {
        let mut list = ArrayVec::new();
        for (_, bytes) in contents.parts() {
            let terminal = grammar.terminal(bytes).ok_or(Fault::GrammarMismatch)?;
            list.push(terminal);
        }
        Ok(Terminals { list })
    }

    // The terminals in the order of the pieces.
    pub fn as_slice(&self) -> &[u8]
        ensures { result.now ≡ listed self.now }
    {
        self.list.as_slice()
    }
}
