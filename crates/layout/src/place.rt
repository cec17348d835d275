ghost use Rattle.std.specs.Prelude.{◌≡◌, length};
ghost use Rattle.tree.specs.Forest.{Tree};
ghost use Rattle.tree.specs.Terminals.{listed as terminals_of};
ghost use Rattle.tree.specs.Walks.{rules_of};
ghost use Rattle.layout.specs.Layouts.{ComesOut, lengths, listed, outcome};
ghost use Rattle.layout.specs.Placers.{Putting, Within};

use crate::answer::settle;
use crate::placement::Layout;
use crate::placer::Placer;
use faults::fault::Fault;
use grammar::grammar::Grammar;
use grammar::rule::Symbol;
use policy::policy::Policy;
use tree::contents::Contents;
use tree::terminals::Terminals;
use tree::walk::{Step, Walk};

impl Placer {
    // Places what an item covers, and answers the item's column.
    fn put<P: Policy>(&mut self, policy: &P, step: &Step, contents: &Contents) -> Result<u8, Fault>
        requires next { step.now.piece ≡ length self.old.list.items }
        requires there { Within step.now.item.symbol step.now.piece (length contents.now.pieces.now) }
        ensures { Putting (P.answers policy.now) step.now (lengths contents.now.pieces.now)
            self.old self.new result }
    {
        let answer = settle(policy, step, self.line.cursor)?;
        self.line.ask(answer.breaks);
        if let Symbol::Terminal(_) = step.item.symbol {
            let length = contents.pieces[step.piece].length;
            self.list.push(self.line.place(answer.column, length));
        }
        Ok(answer.column)
    }

    // Just the placements so far.
    fn layout(self) -> Layout
        ensures { listed result ≡ self.list.items }
    {
        Layout { list: self.list }
    }
}

// Places the pieces of a tree, which its rule numbers give over just these terminals.
pub(crate) fn place<'a, G: Grammar, P: Policy>(
    grammar: &'a G,
    policy: &P,
    contents: &'a Contents<'a>,
    terminals: &'a Terminals,
) -> Result<Layout, Fault>
    requires tree { Tree (G.model grammar.now) (rules_of contents.now.nodes.now) (terminals_of terminals.now) }
    requires same { length (terminals_of terminals.now) ≡ length contents.now.pieces.now }
    ensures { ComesOut (G.model grammar.now) (P.answers policy.now)
        (rules_of contents.now.nodes.now) (lengths contents.now.pieces.now) (outcome result) }
{
    let mut walk = Walk::new(grammar, contents.nodes, terminals)?;
    let mut placer = Placer::default();
    let mut column = 0;
    while let Some(step) = walk.next(column)? {
        column = placer.put(policy, &step, contents)?;
    }
    Ok(placer.layout())
}
