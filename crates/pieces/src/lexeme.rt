ghost use Rattle.std.specs.Prelude.{◌≡◌, ◌∷◌};
ghost use Rattle.std.specs.List.{prefix_len};
ghost use Rattle.pieces.specs.Kinds.{digit, goes_on, quotable};
ghost use Rattle.pieces.specs.Lexeme.{Front, Quoted};

use crate::kind::{Kind, goes_on, is_quotable};
use crate::piece::Class;

// A piece at the front of some bytes: its class, and how many bytes it has.
#[derive(Clone, Copy)]
pub struct Lexeme {
    pub class: Class,
    pub length: usize,
}

// Three short chains: one function of a test would need clauses on that test.

// How many bytes at the front a name runs on through.
fn name_length(bytes: &[u8]) -> usize
    ensures { result ≡ prefix_len goes_on bytes.now }
{
    bytes.iter().take_while(|byte| goes_on(**byte)).count()
}

// How many digits stand at the front.
fn number_length(bytes: &[u8]) -> usize
    ensures { result ≡ prefix_len digit bytes.now }
{
    bytes
        .iter()
        .take_while(|byte| matches!(**byte, b'0'..=b'9'))
        .count()
}

// How many bytes at the front may stand inside a quote.
fn quotable_length(bytes: &[u8]) -> usize
    ensures { result ≡ prefix_len quotable bytes.now }
{
    bytes.iter().take_while(|byte| is_quotable(**byte)).count()
}

// The length of the quote of which these bytes follow the opening one, if it is closed.
fn quote_length(inside: &[u8]) -> Option<usize>
    ensures { Quoted inside.now result }
{
    // By place, as the length is counted from it.
    let end = quotable_length(inside);
    if end < inside.len() && inside[end] == b'"' {
        Some(end + 2)
    } else {
        None
    }
}

impl Lexeme {
    // The piece that begins these bytes, if one does.
    pub fn at_front(bytes: &[u8]) -> Option<Lexeme>
        ensures { Front bytes.now result }
    {
        let [first, rest @ ..] = bytes else {
            return None;
        };
        let class = Kind::from(*first).class()?;
        let length = match class {
            Class::Name => name_length(bytes),
            Class::Number => number_length(bytes),
            Class::Quote => quote_length(rest)?,
            Class::Sign => 1,
        };
        Some(Lexeme { class, length })
    }
}
