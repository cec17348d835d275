ghost use Rattle.std.specs.Prelude.{◌≡◌};
ghost use Rattle.pieces.specs.Kinds.{class_of};

use crate::kind::Kind;
use crate::piece::Class;

impl Class {
    // The class of a piece with these bytes, by the first one.
    pub fn of(bytes: &[u8]) -> Option<Class>
        ensures { result ≡ class_of bytes.now }
    {
        let first = bytes.first()?;
        Kind::from(*first).class()
    }
}
