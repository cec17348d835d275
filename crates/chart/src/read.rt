ghost use Rattle.std.specs.Prelude.{◌≡◌, ◌+◌, ◌*◌, ◌<◌, ◌≤◌, length, Some, None, IfOk, IfErr};
ghost use Rattle.text.specs.Tokens.{listed};
ghost use Rattle.chart.specs.Place.{tri, nodes_of};
ghost use Rattle.chart.specs.Chart.{under};
ghost use Rattle.chart.specs.First.{FirstReads, FirstIsOne, FirstExists};
ghost use Rattle.chart.specs.Numbers.{TreeNumbers, NumbersOne, NumbersTree};
ghost use Rattle.chart.specs.Answer.{unfit, Answered, Read};

use crate::chart::Chart;
use crate::filled::FilledChart;
use crate::waiting::Waiting;
use columns::relation::Relation;
use faults::fault::{Fault, Memory};
use grammar::grammar::Grammar;
use grammar::rule::Symbol;
use text::token::Tokens;
use tree::node::Node;

// The first reading of the tokens from that symbol: its nodes in preorder at the front of `nodes`, and how many they are.
// A first reading is a reading, there is at most one, and there is one wherever there is a reading.
// A tree is the same thing as its rule numbers in preorder.
// Grammar and symbol go one by one: a pair would be made at each call and opened again here.
pub fn first_reading<G: Grammar>(
    g: &G,
    symbol: u8,
    tokens: &Tokens,
    cells: &mut [u64],
    nodes: &mut [Node],
) -> Result<usize, Fault>
    ensures answer { Answered (G.model g.now) (listed tokens.now) symbol (length cells.old)
        nodes.old nodes.new result }
    ensures reads { FirstReads }
    ensures one { FirstIsOne }
    ensures exists { FirstExists }
    ensures numbers { TreeNumbers }
    ensures single { NumbersOne }
    ensures trees { NumbersTree }
{
    let tokens = tokens.as_slice();
    check_fit(g, symbol, tokens.len(), nodes.len(), cells.len())?;
    let chart = Chart {
        grammar: g,
        tokens,
        cells,
    };
    chart.filled().read(symbol, nodes)
}

// The first reason to refuse, if there is one: no such symbol, no tokens, too few nodes, or too small a chart.
// A test for each memory, since each has its own need and its own case of the fault.
fn check_fit<G: Grammar>(
    g: &G,
    symbol: u8,
    count: usize,
    nodes: usize,
    cells: usize,
) -> Result<(), Fault>
    requires { count ≤ 128 }
    ensures ok { IfOk result (λ _. unfit (G.model g.now) symbol count nodes cells ≡ None) }
    ensures err { IfErr result (λ fault. unfit (G.model g.now) symbol count nodes cells ≡ Some fault) }
{
    let n = g.nonterminals();
    if symbol >= n {
        return Err(Fault::GrammarMismatch);
    }
    if count == 0 {
        return Err(Fault::PieceCount);
    }
    if nodes < node_need(n as usize, count) {
        return Err(Fault::ShortMemory(Memory::Nodes));
    }
    if cells < chart_need(n as usize, count) {
        return Err(Fault::ShortMemory(Memory::Chart));
    }
    Ok(())
}

// How many nodes a tree over that many tokens has at most.
fn node_need(n: usize, count: usize) -> usize
    requires { (n ≤ 16) × (0 < count) × (count ≤ 128) }
    ensures { result ≡ nodes_of n count }
{
    n * (2 * count - 1)
}

// How many numbers the chart over that many tokens has.
fn chart_need(n: usize, count: usize) -> usize
    requires { (n ≤ 16) × (0 < count) × (count ≤ 128) }
    ensures { result ≡ tri (count + 1) * n }
{
    (count + 1) * count / 2 * n
}

impl<G: Grammar> FilledChart<'_, '_, G> {
    // The first reading of the chart's tokens from a symbol of the grammar, where memory is enough for its nodes.
    // A type for such a symbol would have to hold the grammar that it is of, so each clause names the chart's.
    fn read(&self, symbol: u8, nodes: &mut [Node]) -> Result<usize, Fault>
        requires low { symbol < (G.model self.now.chart.grammar.now).nonterminals }
        requires room { nodes_of (G.model self.now.chart.grammar.now).nonterminals (length self.now.chart.tokens.now)
            ≤ length nodes.old }
        ensures { under self.now.chart Read symbol nodes.old nodes.new result }
    {
        let stretch = self.chart.whole();
        let columns = self.chart.part(Symbol::Nonterminal(symbol), stretch);
        // No ok_or: where the reading ends is worked out only where there is none.
        match columns.least(Relation::Any, 0) {
            Some(column) => Ok(self.walk(
                Waiting {
                    symbol,
                    column,
                    stretch,
                },
                nodes,
            )),
            None => Err(Fault::NoReading(self.position(self.reach(symbol)))),
        }
    }
}
