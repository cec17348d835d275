ghost use Rattle.std.specs.Prelude.{◌≡◌, map};
ghost use Rattle.std.specs.Option.{option_map};
ghost use Rattle.rulefile.specs.Spelled.{spelled};
ghost use Rattle.rulefile.specs.Views.{several};
ghost use Rattle.rulefile.specs.FormViews.{item_view, row_view};
ghost use Rattle.rulefile.specs.Reading.{is_wrong, items_from, row_from, item_at, row_of};

use crate::form::{EntryFault, LineFault};
use crate::header::Header;
use crate::row::{Entries, Entry, Row};
use crate::spelling::Spelling;
use crate::{forms, parts, values};

// What the two values of an item give.
type Given = Result<Option<Entry>, EntryFault>;

fn is_wrong(item: Given) -> bool
    ensures { result ≡ is_wrong (item_view item) }
{
    matches!(item, Err(EntryFault::Wrong))
}

// The items from the first on; none if there is a gap. Three by name, since which of them may be missing depends on which it is.
fn entries_from(first: Given, second: Given, third: Given) -> Option<Entries>
    ensures { option_map several result ≡ items_from (item_view first) (item_view second) (item_view third) }
{
    let first = first.ok()??;
    match (second.ok()?, third.ok()?) {
        (None, None) => Some(Entries::One(first)),
        (Some(second), None) => Some(Entries::Two(first, second)),
        (Some(second), Some(third)) => Some(Entries::Three(first, second, third)),
        (None, Some(_)) => None,
    }
}

// A line by the forms of its values.
fn row_from(
    left: Option<Spelling>,
    first: Given,
    second: Given,
    third: Given,
) -> Result<Row, LineFault>
    ensures { row_view result ≡ row_from (option_map spelled left) (item_view first) (item_view second) (item_view third) }
{
    let left = left.ok_or(LineFault::Form)?;
    if is_wrong(first) || is_wrong(second) || is_wrong(third) {
        return Err(LineFault::Form);
    }
    let entries = entries_from(first, second, third).ok_or(LineFault::Gap)?;
    Ok(Row { left, entries })
}

impl Header<'_> {
    // An item by the names of its two values.
    fn entry(&self, symbol: &[u8], relation: &[u8], line: &[u8]) -> Given
        ensures { item_view result ≡ item_at symbol.now relation.now self.now.names.now line.now }
    {
        let symbol = values::symbol_form(self.value(symbol, line));
        let relation = forms::relation_form(self.value(relation, line));
        forms::entry(symbol, relation)
    }

    // What a line gives under the names of the first line.
    pub(crate) fn row(&self, line: &[u8]) -> Result<Row, LineFault>
        ensures { row_view result ≡ row_of self.now.names.now line.now }
    {
        if !parts::has_seven_values(line) {
            return Err(LineFault::Count);
        }
        row_from(
            values::nonterminal(self.value(b"left", line)),
            self.entry(b"sym1", b"rel1", line),
            self.entry(b"sym2", b"rel2", line),
            self.entry(b"sym3", b"rel3", line),
        )
    }
}
