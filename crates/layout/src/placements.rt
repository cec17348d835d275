ghost use Rattle.std.specs.Prelude.{◌≡◌, ◌≤◌, length};
ghost use Rattle.layout.specs.Layouts.{listed};

use crate::placement::{Layout, Placement};

impl Layout {
    // The placements in the order of the pieces.
    pub fn as_slice(&self) -> &[Placement]
        ensures is { result.now ≡ listed self.now }
        ensures few { length result.now ≤ 128 }
    {
        self.list.as_slice()
    }
}
