ghost use Rattle.std.specs.Prelude.{◌≡◌};
ghost use Rattle.rulefile.specs.declared.form.EntryFault.TheVariants.{Wrong};

use columns::relation::Relation;

// A value is not written as its column wants it.
#[derive(Clone, Copy)]
pub(crate) struct WrongForm;

// What a value gives: none, if it says that an item is missing.
pub(crate) type Form<T> = Result<Option<T>, WrongForm>;

// How the column of an item stands to the node's, and whether the item carries a mark.
#[derive(Clone, Copy)]
pub(crate) struct Bond {
    pub(crate) relation: Relation,
    pub(crate) mark: bool,
}

// Why two values give no item together: one has a wrong form, or just one of them is missing.
#[derive(Clone, Copy)]
pub(crate) enum EntryFault {
    Wrong,
    Lone,
}

impl From<WrongForm> for EntryFault {
    ghost from_gives = { λ _ fault. fault ≡ Wrong };

    fn from(_: WrongForm) -> EntryFault {
        EntryFault::Wrong
    }
}

// Why a line is no rule: it is not seven values, a value has a wrong form, or an item is missing where it may not be.
#[derive(Clone, Copy, PartialEq, Eq)]
pub(crate) enum LineFault {
    Count,
    Form,
    Gap,
}
