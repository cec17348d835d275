ghost use Rattle.std.specs.Prelude.{◌≡◌, ◌≤◌, length, replicate};
ghost use Rattle.text.specs.Tokens.{listed};
ghost use Rattle.galley.specs.Reads.{Reads, TakesOver, ReadsIn};

use crate::galley::Galley;
use crate::held::Held;
use crate::load::count_bytes;
use crate::source::Source;
use crate::store::Store;
use chart::memory::ChartMemory;
use chart::read::first_reading;
use faults::fault::{Fault, Memory};
use grammar::grammar::Grammar;
use text::scan::scan;
use text::token::Tokens;
use tree::node::Node;

impl Store<'_, Node> {
    // Holds just the nodes of the first reading of the tokens.
    // A pair of grammar and symbol would be made and opened again at each of these calls.
    fn hold_reading<G: Grammar>(
        &mut self,
        g: &G,
        symbol: u8,
        tokens: &Tokens,
        cells: &mut [u64],
    ) -> Result<(), Fault>
        ensures { Reads (G.model g.now) symbol (length cells.old) (listed tokens.now) self.old result self.new }
    {
        self.used = first_reading(g, symbol, tokens, cells, self.memory)?;
        Ok(())
    }
}

impl Held<'_> {
    // Takes over the first reading of a text's tokens with their bytes.
    fn take_over<G: Grammar>(
        &mut self,
        g: &G,
        symbol: u8,
        source: &Source,
        cells: &mut [u64],
    ) -> Result<(), Fault>
        ensures { TakesOver (G.model g.now) symbol (length cells.old) source.now.text.now (listed source.now.tokens.now)
            self.old result self.new }
    {
        // A test for each memory, since each has its own need and its own case of the fault.
        let tokens = source.tokens;
        if self.bytes.room() < count_bytes(tokens) {
            return Err(Fault::ShortMemory(Memory::Bytes));
        }
        if self.pieces.room() < tokens.as_slice().len() {
            return Err(Fault::ShortMemory(Memory::Pieces));
        }
        self.nodes.hold_reading(g, symbol, tokens, cells)?;
        self.bytes.hold_bytes(source);
        self.pieces.hold_pieces(tokens);
        Ok(())
    }
}

impl Galley<'_> {
    // Reads a text from that symbol; the galley then holds its first reading.
    // Whichever way it ends, every number of the chart memory is then zero.
    pub fn read<G: Grammar>(
        &mut self,
        g: &G,
        symbol: u8,
        text: &[u8],
        chart: &mut [u64],
    ) -> Result<(), Fault>
        ensures zero { chart.new ≡ replicate (length chart.old) 0 }
        ensures answer { ReadsIn (G.model g.now) symbol text.now (length chart.old) self.old result self.new }
    {
        let memory = ChartMemory { cells: chart };
        if self.laid.is_some() {
            return Err(Fault::AlreadyLaid);
        }
        if symbol >= g.nonterminals() {
            return Err(Fault::GrammarMismatch);
        }
        let tokens = scan(g, text)?;
        let source = Source {
            text,
            tokens: &tokens,
        };
        self.held.take_over(g, symbol, &source, memory.cells)
    }
}
