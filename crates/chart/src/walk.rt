ghost use Rattle.std.specs.Prelude.{◌≡◌, ◌+◌, ◌-◌, ◌≤◌, length};
ghost use Rattle.grammar.specs.Several.{listed};
ghost use Rattle.chart.specs.Chart.{Within, AllBelow, under};
ghost use Rattle.chart.specs.Readings.{Row};
ghost use Rattle.chart.specs.Place.{nodes_of};
ghost use Rattle.chart.specs.Waits.{waiting, Due, Divided, Adds, Entered, Wrote};

use crate::filled::FilledChart;
use crate::item_row::ItemRow;
use crate::stretch::Stretch;
use crate::waiting::{Stack, Waiting};
use grammar::grammar::Grammar;
use grammar::rule::{Expansion, Items};
use tree::node::{Node, Shape};

impl<G: Grammar> FilledChart<'_, '_, G> {
    // Lets the items of a node at that column wait, the first on top.
    // They divide the stretch, the first as short as it can be, then the second.
    fn divide(&self, items: Items, column: u8, s: Stretch, stack: &mut Stack)
        requires within { Within self.now.chart.tokens.now s }
        requires below { under self.now.chart AllBelow (listed items) }
        requires some { under self.now.chart Row (listed items) s.from s.to column }
        requires free { length (waiting stack.old) + (s.to - s.from) ≤ 128 }
        ensures { Adds (waiting stack.old) (waiting stack.new)
            (under self.now.chart Divided (listed items) column s.from s.to) }
    {
        match items {
            Items::One(x) => x.divide(self, column, s, stack),
            Items::Two(x, y) => (x, y).divide(self, column, s, stack),
            Items::Three(x, y, z) => (x, (y, z)).divide(self, column, s, stack),
        }
    }

    // The node that waits. In its place its items then wait.
    fn enter(&self, next: Waiting, stack: &mut Stack) -> Node
        requires due { under self.now.chart Due next }
        requires free { length (waiting stack.old) + (next.stretch.to - next.stretch.from) ≤ 128 }
        ensures { Adds (waiting stack.old) (waiting stack.new)
            (under self.now.chart Entered next result) }
    {
        let Expansion { rule, items } = self.lowest_rule(next);
        self.divide(items, next.column, next.stretch, stack);
        Node {
            rule,
            left: next.symbol,
            shape: Shape::from(items),
        }
    }

    // Writes the first tree for what waits, and answers how many nodes it has.
    pub(crate) fn walk(&self, top: Waiting, nodes: &mut [Node]) -> usize
        requires due { under self.now.chart Due top }
        requires room { nodes_of (G.model self.now.chart.grammar.now).nonterminals (length self.now.chart.tokens.now)
            ≤ length nodes.old }
        ensures { under self.now.chart Wrote top nodes.old nodes.new result }
    {
        let mut stack = Stack::new();
        stack.push(top);
        for (count, slot) in nodes.iter_mut().enumerate() {
            let Some(next) = stack.pop() else {
                return count;
            };
            *slot = self.enter(next, &mut stack);
        }
        nodes.len()
    }
}
