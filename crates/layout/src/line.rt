ghost use Rattle.std.specs.Prelude.{◌≡◌, ◌≤◌};
ghost use Rattle.layout.specs.Lines.{asked, behind, placed};

use crate::placement::Placement;

// The line that is being filled: its next free column, and whether a break waits for the next piece.
// The cursor is 0 only before the first piece.
#[derive(Clone, Copy, Default)]
pub struct Line {
    pub(crate) cursor: u8,
    pub(crate) breaks: bool,
}

impl Line {
    // Lets a break wait if one is asked for.
    pub(crate) fn ask(&mut self, breaks: bool)
        ensures { self.new ≡ asked self.old breaks }
    {
        self.breaks = self.breaks || breaks;
    }

    // Places a piece of that length that is to stand in that column.
    pub(crate) fn place(&mut self, column: u8, length: u8) -> Placement
        requires { (column ≤ 63) × (length ≤ 32) }
        ensures piece { result ≡ placed self.old column }
        ensures line { self.new ≡ behind column length }
    {
        let opens_line = self.cursor > column || self.breaks && self.cursor > 0;
        *self = Line {
            cursor: column + length + 1,
            breaks: false,
        };
        Placement { column, opens_line }
    }
}
