ghost use Rattle.std.specs.Prelude.{◌≡◌, IfOk, IfErr, None};
ghost use Rattle.grammar.specs.declared.rule.Symbol.TheVariants.{Terminal, Nonterminal};
ghost use Rattle.tree.specs.Covering.{Covers, Ends, Enters, Goes, Keeps, Opens, Still};
ghost use Rattle.tree.specs.Terminals.{listed};
ghost use Rattle.tree.specs.Walks.{Begins, Nexts, Over, Same, rules_of};

use crate::frame::Frame;
use crate::node::Node;
use crate::terminals::Terminals;
use crate::walk::{Step, Walk};
use arrayvec::ArrayVec;
use faults::fault::Fault;
use grammar::grammar::Grammar;
use grammar::rule::{Expansion, Symbol};

impl<'a, G: Grammar> Walk<'a, G> {
    // A walk that has come to the top node.
    pub fn new(
        grammar: &'a G,
        nodes: &'a [Node],
        terminals: &'a Terminals,
    ) -> Result<Walk<'a, G>, Fault>
        ensures over { IfOk result (Over grammar.entry nodes.entry terminals.entry) }
        ensures top { Begins (G.model grammar.now) (rules_of nodes.now) (listed terminals.now) result }
    {
        let mut walk = Walk {
            grammar,
            nodes,
            terminals,
            waiting: ArrayVec::new(),
            entered: None,
            piece: 0,
        };
        walk.enter()?;
        Ok(walk)
    }

    // The next item; none at the end. The column is that of the node that the walk came to last.
    // Refused where the rule numbers do not give one tree over just these pieces.
    pub fn next(&mut self, column: u8) -> Result<Option<Step>, Fault>
        ensures same { Same self.old self.new }
        ensures next { Nexts (G.model self.old.grammar.now) column self.old self.new result }
    {
        let Some(frame) = self.open(column) else {
            return self.end();
        };
        let (item, rest) = frame.split();
        self.keep(rest)?;
        let piece = self.piece;
        self.cover(item.symbol)?;
        Ok(Some(Step {
            rule: frame.rule,
            column: frame.column,
            index: frame.index,
            item,
            piece,
        }))
    }

    // The node whose item comes next; none where no item is to come.
    fn open(&mut self, column: u8) -> Option<Frame>
        ensures still { Still self.old self.new }
        ensures entered { self.new.entered ≡ None }
        ensures slots { Opens column self.old self.new result }
    {
        match self.entered.take() {
            Some(node) => Some(Frame {
                rule: node.rule,
                column,
                index: 0,
                items: node.items,
            }),
            None => self.waiting.pop(),
        }
    }

    // Lets a node with items behind the one that comes now wait.
    fn keep(&mut self, rest: Option<Frame>) -> Result<(), Fault>
        ensures still { Still self.old self.new }
        ensures entered { self.new.entered ≡ self.old.entered }
        ensures slots { Keeps rest self.old self.new result }
    {
        match rest {
            Some(frame) => self
                .waiting
                .try_push(frame)
                .map_err(|_| Fault::GrammarMismatch),
            None => Ok(()),
        }
    }

    // Comes to the next node and answers the nonterminal on the left of its rule.
    fn enter(&mut self) -> Result<u8, Fault>
        ensures goes { Goes self.old self.new }
        ensures kept { IfErr result (λ _. self.new ≡ self.old) }
        ensures enters { Enters (G.model self.old.grammar.now) self.old self.new result }
    {
        let (node, rest) = self.nodes.split_first().ok_or(Fault::GrammarMismatch)?;
        let rule = self.grammar.rule(node.rule).ok_or(Fault::GrammarMismatch)?;
        self.nodes = rest;
        self.entered = Some(Expansion {
            rule: node.rule,
            items: rule.items,
        });
        Ok(rule.left)
    }

    // Takes the next piece, which should have that terminal.
    fn take_piece(&mut self, terminal: u8) -> Result<(), Fault>
        requires { self.old.entered ≡ None }
        ensures goes { Goes self.old self.new }
        ensures takes { Covers (G.model self.old.grammar.now) (Terminal terminal)
            self.old self.new result }
    {
        match self.terminals.as_slice().get(self.piece) {
            Some(found) if *found == terminal => {
                self.piece += 1;
                Ok(())
            }
            _ => Err(Fault::GrammarMismatch),
        }
    }

    // Takes the next node, which should have that symbol on the left of its rule; a node that is refused is still to come.
    fn take_node(&mut self, left: u8) -> Result<(), Fault>
        requires { self.old.entered ≡ None }
        ensures goes { Goes self.old self.new }
        ensures kept { IfErr result (λ _. self.new ≡ self.old) }
        ensures takes { Covers (G.model self.old.grammar.now) (Nonterminal left)
            self.old self.new result }
    {
        let nodes = self.nodes;
        if self.enter()? == left {
            return Ok(());
        }
        self.nodes = nodes;
        self.entered = None;
        Err(Fault::GrammarMismatch)
    }

    // Takes the piece or the node that comes next, which should be what the symbol stands for.
    fn cover(&mut self, symbol: Symbol) -> Result<(), Fault>
        requires { self.old.entered ≡ None }
        ensures goes { Goes self.old self.new }
        ensures takes { Covers (G.model self.old.grammar.now) symbol self.old self.new result }
    {
        match symbol {
            Symbol::Terminal(terminal) => self.take_piece(terminal),
            Symbol::Nonterminal(left) => self.take_node(left),
        }
    }

    // The end, where nothing is left over.
    fn end(&self) -> Result<Option<Step>, Fault>
        ensures { Ends self.now result }
    {
        if self.nodes.is_empty() && self.piece >= self.terminals.as_slice().len() {
            Ok(None)
        } else {
            Err(Fault::GrammarMismatch)
        }
    }
}
