ghost use Rattle.std.specs.Prelude.{◌+◌, ◌≤◌, length};
ghost use Rattle.chart.specs.Chart.{Within, Done, Same, inside};

use crate::chart::Chart;
use crate::filled::FilledChart;
use crate::stretch::Stretch;
use grammar::grammar::Grammar;

impl<'a, 'c, G: Grammar> Chart<'a, 'c, G> {
    // The chart with all its numbers written.
    pub(crate) fn filled(mut self) -> FilledChart<'a, 'c, G>
        ensures { Same self.entry result.chart }
    {
        self.fill();
        FilledChart { chart: self }
    }

    // Writes the whole chart.
    fn fill(&mut self)
        ensures after { inside self.new Done 0 (length self.new.tokens.now) }
        ensures same { Same self.old self.new }
    {
        for to in 1..=self.tokens.len() as u8 {
            self.fill_end(to);
        }
    }

    // Writes the numbers of all stretches that end there, the shortest first.
    fn fill_end(&mut self, to: u8)
        requires end { to ≤ length self.old.tokens.now }
        requires before { inside self.old Done to to }
        ensures after { inside self.new Done 0 to }
        ensures same { Same self.old self.new }
    {
        for from in (0..to).rev() {
            self.fill_stretch(Stretch { from, to });
        }
    }

    // Writes the numbers of all nonterminals for the stretch.
    // The highest come first, since a rule with one nonterminal item leads from a lower one to a higher one.
    fn fill_stretch(&mut self, s: Stretch)
        requires within { Within self.old.tokens.now s }
        requires before { inside self.old Done (s.from + 1) s.to }
        ensures after { inside self.new Done s.from s.to }
        ensures same { Same self.old self.new }
    {
        for a in (0..self.grammar.nonterminals()).rev() {
            let columns = self.cell(a, s);
            let place = self.place(a, s);
            self.cells[place] = columns.bits;
        }
    }
}
