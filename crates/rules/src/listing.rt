use faults::fault::Fault;
use grammar::grammar::Grammar;
use grammar::rule::{Item, Rule, Symbol};
use rulefile::loaded::LoadedGrammar;
use std::fmt::Display;
use std::io;

// A fault as one line.
pub(crate) fn print_fault(rt: &HostRuntime, fault: Fault) -> io::Result<()> {
    println!(rt; "{fault}")
}

// A grammar to be printed.
#[derive(Clone, Copy)]
pub(crate) struct Listing<'a> {
    pub(crate) rt: &'a HostRuntime,
    pub(crate) grammar: &'a LoadedGrammar,
}

impl Listing<'_> {
    // The counts, then a line for each terminal and each rule, by number.
    pub(crate) fn print(&self) -> io::Result<()> {
        println!(self.rt; "nonterminals {}", self.grammar.nonterminals())?;
        println!(self.rt; "terminals {}", self.grammar.terminals())?;
        println!(self.rt; "rules {}", self.grammar.rules())?;
        for number in 0..self.grammar.terminals() {
            print!(self.rt; "terminal ")?;
            self.print_symbol(Symbol::Terminal(number))?;
            println!(self.rt; "")?;
        }
        for number in 0..self.grammar.rules() {
            if let Some(rule) = self.grammar.rule(number) {
                print!(self.rt; "rule {number}: ")?;
                self.print_rule(rule)?;
            }
        }
        Ok(())
    }

    fn print_rule(&self, rule: Rule) -> io::Result<()> {
        self.print_symbol(Symbol::Nonterminal(rule.left))?;
        // By place, as a rule tells its items.
        let items = (0..rule.items.count()).filter_map(|index| rule.items.get(index));
        for (sign, item) in [":", ",", ","].into_iter().zip(items) {
            print!(self.rt; "{sign} ")?;
            self.print_item(item)?;
        }
        println!(self.rt; "")
    }

    fn print_item(&self, item: Item) -> io::Result<()> {
        self.print_symbol(item.symbol)?;
        let mark = if item.mark { "!" } else { "" };
        print!(self.rt; " {}{mark}", item.relation)
    }

    // A number, and beside it what the file calls it.
    fn print_named<N: Display + Drop>(&self, number: u8, name: Option<N>) -> io::Result<()> {
        print!(self.rt; "{number} ")?;
        match name {
            Some(name) => print!(self.rt; "{name}"),
            None => Ok(()),
        }
    }

    fn print_symbol(&self, symbol: Symbol) -> io::Result<()> {
        match symbol {
            Symbol::Nonterminal(number) => {
                self.print_named(number, self.grammar.nonterminal_name(number))
            }
            Symbol::Terminal(number) => {
                self.print_named(number, self.grammar.terminal_text(number))
            }
        }
    }
}
