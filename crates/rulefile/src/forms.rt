ghost use Rattle.std.specs.Prelude.{◌≡◌};
ghost use Rattle.std.specs.Char.{is_ascii_alphanumeric};
ghost use Rattle.std.specs.List.{list_all};
ghost use Rattle.pieces.specs.Kinds.{goes_on};
ghost use Rattle.rulefile.specs.Spelled.{formed};
ghost use Rattle.rulefile.specs.Forms.{capitalized, relation_named, bond, relation_form, item_form};
ghost use Rattle.rulefile.specs.FormViews.{symbol_view, item_view};

use crate::form::{Bond, EntryFault, Form, WrongForm};
use crate::row::{Entry, Mention};
use columns::relation::Relation;
use pieces::kind::{Kind, goes_on};

fn all_go_on(bytes: &[u8]) -> bool
    ensures { result ≡ list_all goes_on bytes.now }
{
    bytes.iter().all(|byte| goes_on(*byte))
}

fn all_alphanumeric(bytes: &[u8]) -> bool
    ensures { result ≡ list_all is_ascii_alphanumeric bytes.now }
{
    bytes.iter().all(|byte| byte.is_ascii_alphanumeric())
}

// Whether some bytes are one name or one sign.
pub(crate) fn is_formed(bytes: &[u8]) -> bool
    ensures { result ≡ formed bytes.now }
{
    let [first, rest @ ..] = bytes else {
        return false;
    };
    match Kind::from(*first) {
        Kind::Letter => all_go_on(rest),
        Kind::Sign => rest.is_empty(),
        _ => false,
    }
}

// Whether some bytes are a capital letter, then letters and digits.
pub(crate) fn is_capitalized(bytes: &[u8]) -> bool
    ensures { result ≡ capitalized bytes.now }
{
    let [first, rest @ ..] = bytes else {
        return false;
    };
    first.is_ascii_uppercase() && all_alphanumeric(rest)
}

// The relation with that sign. No TryFrom in columns: signs are read from rule files alone.
fn named_relation(bytes: &[u8]) -> Option<Relation>
    ensures { result ≡ relation_named bytes.now }
{
    match bytes {
        b"=" => Some(Relation::Equal),
        b">" => Some(Relation::Above),
        b">=" => Some(Relation::AtLeast),
        b"*" => Some(Relation::Any),
        _ => None,
    }
}

// The relation with that sign, with or without a mark.
fn bonded(bytes: &[u8], mark: bool) -> Form<Bond>
    ensures { result ≡ bond mark (relation_named bytes.now) }
{
    let relation = named_relation(bytes).ok_or(WrongForm)?;
    Ok(Some(Bond { relation, mark }))
}

// The relation of a value, by its bytes with an optional mark.
pub(crate) fn relation_form(value: &[u8]) -> Form<Bond>
    ensures { result ≡ relation_form value.now }
{
    match value {
        b"-" => Ok(None),
        [bytes @ .., b'!'] => bonded(bytes, true),
        _ => bonded(value, false),
    }
}

// An item by the forms of its two values.
pub(crate) fn entry(
    symbol: Form<Mention>,
    relation: Form<Bond>,
) -> Result<Option<Entry>, EntryFault>
    ensures { item_view result ≡ item_form (symbol_view symbol) relation }
{
    match (symbol?, relation?) {
        (Some(symbol), Some(bond)) => Ok(Some(Entry {
            symbol,
            relation: bond.relation,
            mark: bond.mark,
        })),
        (None, None) => Ok(None),
        _ => Err(EntryFault::Lone),
    }
}
