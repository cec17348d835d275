ghost use Rattle.std.specs.Prelude.{Some};
ghost use Rattle.faults.specs.Line.{fault_text};

use crate::fault::{Fault, Position};
use std::fmt;

// The fault's number, and the line and column that it points at, 0 for what it lacks.
impl fmt::Display for Fault {
    ghost output = { λ f. Some (fault_text f) };

    fn fmt<W: fmt::Write>(&self, f: &mut fmt::Formatter<W>) -> fmt::Result {
        let number = self.number();
        let Position { line, column } = self.place().position();
        write!(f, "fault {number} line {line} column {column}")
    }
}
