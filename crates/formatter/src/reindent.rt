ghost use Rattle.std.specs.Prelude.{◌≡◌, ◌≤◌, length, MatchResult};
ghost use Rattle.formatter.specs.Reindents.{Reindents};

use faults::fault::Fault;
use galley::galley::Galley;
use grammar::block::Block;
use policy::step::Step;
use tree::node::Node;
use tree::piece::PieceRecord;

// How far a level is indented.
const WIDTH: u8 = 4;

// Memory for a script: 8,192 numbers for the chart, and room for 128 pieces of 32 bytes and for the most nodes that 128 pieces need.
const CHART: usize = 8192;

const BYTES: usize = 4096;

const PIECES: usize = 128;

const NODES: usize = 1785;

// Reads a text as a script of the block language and writes it, re-indented, to the front of `out`; answers its length.
pub fn reindent(text: &[u8], out: &mut [u8]) -> Result<usize, Fault>
    ensures is { Reindents text.now out.old result out.new }
    ensures fits { MatchResult result (λ n. n ≤ length out.old) (λ _. out.new ≡ out.old) }
{
    let mut chart = [0; CHART];
    let mut bytes = [0; BYTES];
    let mut pieces = [PieceRecord::default(); PIECES];
    let mut nodes = [Node::default(); NODES];
    let mut galley = Galley::new(1, &mut bytes, &mut pieces, &mut nodes);
    galley.read(&Block, Block::SCRIPT, text, &mut chart)?;
    let policy = Step::new(WIDTH)?;
    galley.lay_and_write(&Block, &policy, out, 0)
}
