ghost use Rattle.std.specs.Prelude.{◌≡◌, Some, None};
ghost use Rattle.std.specs.Option.{option_map};
ghost use Rattle.std.specs.List.{slice_get};
ghost use Rattle.rulefile.specs.Built.{model_of};
ghost use Rattle.rulefile.specs.Denoted.{denoted};
ghost use Rattle.rulefile.specs.Spelled.{spelled};
ghost use Rattle.rulefile.specs.Tables.{names as names_of, terminals as terminals_of};
ghost use Rattle.rulefile.specs.Lawfulness;

use crate::loaded::LoadedGrammar;
use crate::spelling::Spelling;
use crate::terminal::Terminal;
use grammar::grammar::Grammar;
use grammar::rule::Rule;
use pieces::piece::Class;

impl Grammar for LoadedGrammar {
    ghost model = { λ g. model_of g.table };

    ghost lawful = { λ g. Lawfulness.lawful g };

    fn nonterminals(&self) -> u8 {
        self.table.names.len() as u8
    }

    fn terminals(&self) -> u8 {
        self.table.terminals.as_slice().len() as u8
    }

    fn rules(&self) -> u8 {
        self.table.rules.len() as u8
    }

    fn rule(&self, number: u8) -> Option<Rule> {
        let rules = self.table.rules.as_slice();
        rules.get(number as usize).copied()
    }

    fn terminal(&self, bytes: &[u8]) -> Option<u8> {
        let word = self.table.terminals.of_word(bytes);
        word.or(self.table.terminals.of_class(Class::of(bytes)))
    }
}

impl LoadedGrammar {
    // The name of a nonterminal as the file has it; none past the last.
    pub fn nonterminal_name(&self, number: u8) -> Option<Spelling>
        ensures { option_map spelled result ≡ slice_get (names_of self.now.table.names) number }
    {
        self.table.names.as_slice().get(number as usize).copied()
    }

    // A terminal, a class or a word; none past the last.
    pub fn terminal_text(&self, number: u8) -> Option<Terminal>
        ensures { option_map denoted result ≡ slice_get (terminals_of self.now.table.terminals) number }
    {
        let terminals = self.table.terminals.as_slice();
        terminals.get(number as usize).copied()
    }
}
