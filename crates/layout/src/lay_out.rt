ghost use Rattle.tree.specs.Walks.{rules_of};
ghost use Rattle.layout.specs.Layouts.{Laid};

use crate::place::place;
use crate::placement::Layout;
use faults::fault::Fault;
use grammar::grammar::Grammar;
use policy::policy::Policy;
use tree::contents::Contents;
use tree::judge::judge;
use tree::terminals::Terminals;

// Where the pieces of a tree stand under a grammar, by a policy. Refused where the tree breaks a rule of the grammar,
// or else at the first item whose column is above 63.
pub fn lay_out<G: Grammar, P: Policy>(
    grammar: &G,
    policy: &P,
    contents: Contents,
) -> Result<Layout, Fault>
    ensures { Laid (G.model grammar.now) (P.answers policy.now)
        contents.entry.bytes.now contents.entry.pieces.now (rules_of contents.entry.nodes.now) result }
{
    let terminals = Terminals::of(grammar, &contents)?;
    judge(grammar, contents.nodes, &terminals)?;
    place(grammar, policy, &contents, &terminals)
}
