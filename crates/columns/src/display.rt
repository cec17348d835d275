ghost use Rattle.std.specs.Prelude.{Some};
ghost use Rattle.columns.specs.Signs.{sign};

use crate::relation::Relation;
use std::fmt;

// As a rule file writes it.
impl fmt::Display for Relation {
    ghost output = { λ relation. Some (sign relation) };

    fn fmt<W: fmt::Write>(&self, f: &mut fmt::Formatter<W>) -> fmt::Result {
        f.write_str(match self {
            Relation::Equal => "=",
            Relation::Above => ">",
            Relation::AtLeast => ">=",
            Relation::Any => "*",
        })
    }
}
