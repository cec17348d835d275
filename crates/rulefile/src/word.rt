ghost use Rattle.std.specs.Prelude.{◌≡◌, true};
ghost use Rattle.rulefile.specs.Spelled.{spelled, formed};

use crate::spelling::Spelling;

// A spelling that is one name or one sign.
#[derive(Clone, Copy, PartialEq)]
pub struct Word {
    pub(crate) spelling: Spelling,
    ghost one: { formed (spelled spelling) ≡ true },
}
