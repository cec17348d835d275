ghost use Rattle.std.specs.Prelude.{◌≡◌, ◌≤◌, [], length, Some};
ghost use Rattle.grammar.specs.Model.{classed, spelled, first_with};
ghost use Rattle.rulefile.specs.Denoted.{denoted, alike};
ghost use Rattle.rulefile.specs.Places.{Numbers};
ghost use Rattle.rulefile.specs.Tables.{terminals};

use crate::numbers;
use crate::table::Terminals;
use crate::terminal::Terminal;
use arrayvec::ArrayVec;
use pieces::piece::Class;

impl Terminal {
    // Whether this is the word with those bytes.
    fn is_word(&self, bytes: &[u8]) -> bool
        ensures { result ≡ spelled bytes.now (denoted self.now) }
    {
        match self {
            Terminal::Word(word) => word.spelling.as_slice() == bytes,
            Terminal::Name | Terminal::Number | Terminal::Quote => false,
        }
    }

    // Whether this is that class.
    fn is_class(&self, class: Class) -> bool
        ensures { result ≡ classed (Some class) (denoted self.now) }
    {
        matches!(
            (self, class),
            (Terminal::Name, Class::Name)
                | (Terminal::Number, Class::Number)
                | (Terminal::Quote, Class::Quote)
        )
    }
}

// No terminals. By hand: a type with a ghost field derives no Default.
impl Default for Terminals {
    ghost is_default = { λ ts. terminals ts ≡ [] };

    fn default() -> Terminals {
        Terminals {
            list: ArrayVec::new(),
        }
    }
}

impl Terminals {
    // The terminals in the order of their numbers.
    pub(crate) fn as_slice(&self) -> &[Terminal]
        ensures is { result.now ≡ self.now.list.items }
        ensures few { length result.now ≤ 32 }
    {
        self.list.as_slice()
    }

    // The number of the word with these bytes, if there is one.
    pub(crate) fn of_word(&self, bytes: &[u8]) -> Option<u8>
        ensures { result ≡ first_with (spelled bytes.now) (terminals self.now) }
    {
        self.as_slice()
            .iter()
            .position(|known| known.is_word(bytes))
            .map(|at| at as u8)
    }

    // The number of that class, if there is one.
    // The same chain twice: one function of a test would need clauses on that test.
    pub(crate) fn of_class(&self, class: Option<Class>) -> Option<u8>
        ensures { result ≡ first_with (classed class) (terminals self.now) }
    {
        let class = class?;
        self.as_slice()
            .iter()
            .position(|known| known.is_class(class))
            .map(|at| at as u8)
    }

    // The number of that terminal, which is added if it is new; none if there is no room for it.
    pub(crate) fn number(&mut self, terminal: Terminal) -> Option<u8>
        ensures { Numbers alike 32 (terminals self.old) (denoted terminal) result (terminals self.new) }
    {
        numbers::number(&mut self.list, terminal)
    }
}
