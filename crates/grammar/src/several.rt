ghost use Rattle.std.specs.Prelude.{◌≡◌, length};
ghost use Rattle.std.specs.List.{slice_get};
ghost use Rattle.grammar.specs.Several.{listed};

// One, two or three of a kind, in order.
// No ArrayVec: rules stand in a static table and are copied.
#[derive(Clone, Copy)]
pub enum Several<T> {
    One(T),
    Two(T, T),
    Three(T, T, T),
}

impl<T: Copy> Several<T> {
    // How many there are.
    pub fn count(&self) -> u8
        ensures { result ≡ length (listed self.now) }
    {
        match self {
            Several::One(_) => 1,
            Several::Two(_, _) => 2,
            Several::Three(_, _, _) => 3,
        }
    }

    // The one at that place, counted from 0; none past the last.
    pub fn get(&self, index: u8) -> Option<T>
        ensures { result ≡ slice_get (listed self.now) index }
    {
        match (self, index) {
            (Several::One(first) | Several::Two(first, _) | Several::Three(first, _, _), 0) => Some(
                *first,
            ),
            (Several::Two(_, second) | Several::Three(_, second, _), 1) => Some(*second),
            (Several::Three(_, _, third), 2) => Some(*third),
            _ => None,
        }
    }
}

// What stands in memory for none: one blank.
// By hand: a derive's default case holds no value.
impl<T: Default> Default for Several<T> {
    ghost use Rattle.std.specs.Prelude.{◌≡◌};
    ghost use Rattle.grammar.specs.declared.several.Several.TheVariants.{One};

    ghost is_default = { λ several. (x : T) × T.is_default x × (several ≡ One x) };

    fn default() -> Self {
        Several::One(T::default())
    }
}
