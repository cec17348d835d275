ghost use Rattle.tree.specs.Forest.{Judges};
ghost use Rattle.tree.specs.Terminals.{listed};
ghost use Rattle.tree.specs.Walks.{rules_of};

use crate::node::Node;
use crate::terminals::Terminals;
use crate::walk::Walk;
use faults::fault::Fault;
use grammar::grammar::Grammar;

// Refuses nodes whose rule numbers do not give one tree over just these pieces.
pub fn judge<'a, G: Grammar>(
    grammar: &'a G,
    nodes: &'a [Node],
    terminals: &'a Terminals,
) -> Result<(), Fault>
    ensures { Judges (G.model grammar.now) (rules_of nodes.now) (listed terminals.now) result }
{
    let mut walk = Walk::new(grammar, nodes, terminals)?;
    while let Some(_) = walk.next(0)? {}
    Ok(())
}
