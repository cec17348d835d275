ghost use Rattle.std.specs.Prelude.{◌≡◌};
ghost use Rattle.std.specs.Option.{option_map};
ghost use Rattle.rulefile.specs.Spelled.{spelled};
ghost use Rattle.rulefile.specs.Forms.{nonterminal_name, nonterminal_form, spelling_form, word_form, class_named, bare_form, symbol_form};
ghost use Rattle.rulefile.specs.Denoted.{denoted};
ghost use Rattle.rulefile.specs.FormViews.{symbol_view};

use crate::form::{Form, WrongForm};
use crate::forms;
use crate::row::Mention;
use crate::spelling::Spelling;
use crate::terminal::Terminal;
use crate::word::Word;

// The name of a nonterminal, if a value has the form of one.
pub(crate) fn nonterminal(value: &[u8]) -> Option<Spelling>
    ensures { option_map spelled result ≡ nonterminal_name value.now }
{
    if !forms::is_capitalized(value) {
        return None;
    }
    Spelling::new(value)
}

// The nonterminal of that name.
fn nonterminal_form(value: &[u8]) -> Form<Mention>
    ensures { symbol_view result ≡ nonterminal_form value.now }
{
    let name = nonterminal(value).ok_or(WrongForm)?;
    Ok(Some(Mention::Nonterminal(name)))
}

// The word of that spelling, if it is one name or one sign of at most 12 bytes.
fn spelling_form(inside: &[u8]) -> Form<Mention>
    ensures { symbol_view result ≡ spelling_form inside.now }
{
    if !forms::is_formed(inside) {
        return Err(WrongForm);
    }
    let spelling = Spelling::new(inside).ok_or(WrongForm)?;
    Ok(Some(Mention::Terminal(Terminal::Word(Word { spelling }))))
}

// What stands behind the opening byte of a word.
fn word_form(rest: &[u8]) -> Form<Mention>
    ensures { symbol_view result ≡ word_form rest.now }
{
    match rest {
        [inside @ .., b'\''] => spelling_form(inside),
        _ => Err(WrongForm),
    }
}

// The class of that name.
fn named_class(value: &[u8]) -> Option<Terminal>
    ensures { option_map denoted result ≡ class_named value.now }
{
    match value {
        b"name" => Some(Terminal::Name),
        b"number" => Some(Terminal::Number),
        b"quote" => Some(Terminal::Quote),
        _ => None,
    }
}

// The symbol of a value that does not begin as a word: a missing item, a class or a nonterminal.
fn bare_form(value: &[u8]) -> Form<Mention>
    ensures { symbol_view result ≡ bare_form value.now }
{
    match value {
        b"-" => Ok(None),
        _ => match named_class(value) {
            Some(class) => Ok(Some(Mention::Terminal(class))),
            None => nonterminal_form(value),
        },
    }
}

// The symbol of a value.
pub(crate) fn symbol_form(value: &[u8]) -> Form<Mention>
    ensures { symbol_view result ≡ symbol_form value.now }
{
    match value {
        [b'\'', rest @ ..] => word_form(rest),
        [] => Err(WrongForm),
        _ => bare_form(value),
    }
}
