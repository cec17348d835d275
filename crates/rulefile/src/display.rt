ghost use Rattle.std.specs.Prelude.{◌≡◌, Some};
ghost use Rattle.rulefile.specs.Shown.{spelling_text, terminal_text};

use crate::spelling::Spelling;
use crate::terminal::Terminal;
use std::fmt;

// The bytes as text; empty if they are none.
fn text(spelling: &Spelling) -> &str
    ensures { result.now ≡ spelling_text spelling.now }
{
    std::str::from_utf8(spelling.as_slice()).unwrap_or("")
}

impl fmt::Display for Spelling {
    ghost output = { λ s. Some (spelling_text s) };

    fn fmt<W: fmt::Write>(&self, f: &mut fmt::Formatter<W>) -> fmt::Result {
        f.write_str(text(self))
    }
}

// As a rule file writes it.
impl fmt::Display for Terminal {
    ghost output = { λ t. Some (terminal_text t) };

    fn fmt<W: fmt::Write>(&self, f: &mut fmt::Formatter<W>) -> fmt::Result {
        match self {
            Terminal::Name => f.write_str("name"),
            Terminal::Number => f.write_str("number"),
            Terminal::Quote => f.write_str("quote"),
            Terminal::Word(word) => write!(f, "'{}'", word.spelling),
        }
    }
}
