ghost use Rattle.std.specs.Prelude.{◌≡◌, ◌≤◌, true, map, length};
ghost use Rattle.rulefile.specs.Bounds.{ordered as is_ordered, unordered};
ghost use Rattle.rulefile.specs.Loaded.{limited, by_rows, loaded as meaning_of};
ghost use Rattle.rulefile.specs.Parts.{parts};
ghost use Rattle.rulefile.specs.Reading.{row_of};
ghost use Rattle.rulefile.specs.Tables.{names as names_of, terminals as terminals_of, rules as rules_of, bounded};
ghost use Rattle.rulefile.specs.Told.{told};

use crate::form::LineFault;
use crate::header::Header;
use crate::loaded::LoadedGrammar;
use crate::table::Table;
use crate::{lines, parts};
use faults::fault::Fault;
use grammar::rule::{Items, Rule, Symbol};

// Whether the only item of a rule, if it is a nonterminal, has a higher number than the left one.
fn is_ordered(rule: Rule) -> bool
    ensures { result ≡ is_ordered rule }
{
    match rule.items {
        Items::One(item) => match item.symbol {
            Symbol::Nonterminal(number) => rule.left < number,
            Symbol::Terminal(_) => true,
        },
        Items::Two(_, _) | Items::Three(_, _, _) => true,
    }
}

impl Table {
    // The line of the first rule that is not ordered; the first rule stands on line 2.
    fn unordered_line(&self) -> Option<u16>
        ensures { result ≡ unordered 2 (rules_of self.now.rules) }
    {
        self.rules
            .as_slice()
            .iter()
            .position(|rule| !is_ordered(*rule))
            .map(|at| at as u16 + 2)
    }

    // The grammar of these tables, if its counts are within their limits and its rules are ordered.
    fn finish(self) -> Result<LoadedGrammar, Fault>
        requires { bounded self.names self.terminals self.rules ≡ true }
        ensures { told result ≡ limited (names_of self.names) (terminals_of self.terminals) (rules_of self.rules) }
    {
        let terminals = self.terminals.as_slice().len();
        if self.names.len() == 0 || terminals == 0 || self.rules.len() == 0 {
            return Err(Fault::GrammarSize);
        }
        match self.unordered_line() {
            Some(line) => Err(Fault::UnitRule(line)),
            None => Ok(LoadedGrammar { table: self }),
        }
    }
}

impl Header<'_> {
    // The grammar of the lines behind the first one, or the first reason to refuse them.
    fn grammar(&self, lines: &[u8]) -> Result<LoadedGrammar, Fault>
        requires { length lines.now ≤ 4096 }
        ensures { told result ≡ by_rows (map (row_of self.now.names.now) (parts 10 lines.now)) }
    {
        // Three steps and no loop, since each gives another case of Fault.
        if let Some(line) = self.line_with(LineFault::Count, lines) {
            return Err(Fault::ValueCount(line));
        }
        if let Some(line) = self.line_with(LineFault::Form, lines) {
            return Err(Fault::ValueForm(line));
        }
        if let Some(line) = self.line_with(LineFault::Gap, lines) {
            return Err(Fault::ItemGap(line));
        }
        self.build(lines).ok_or(Fault::GrammarSize)?.finish()
    }
}

impl LoadedGrammar {
    // The grammar that a rule file means, or the first reason to refuse the file.
    pub fn load(file: &[u8]) -> Result<LoadedGrammar, Fault>
        ensures { told result ≡ meaning_of file.now }
    {
        if file.len() > 4096 || !lines::all_allowed(file) {
            return Err(Fault::FileBytes);
        }
        let (first, lines) = parts::first_part(file, b'\n').ok_or(Fault::FileNames)?;
        let header = Header::new(first).ok_or(Fault::FileNames)?;
        header.grammar(lines)
    }
}
