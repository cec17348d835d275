ghost use Rattle.std.specs.Prelude.{◌+◌, ◌≤◌, length};
ghost use Rattle.grammar.specs.Several.{listed};

use grammar::rule::Items;

// A node with items to come: those, the number of the first of them, the node's rule and its column.
#[derive(Clone, Copy)]
pub struct Frame {
    pub(crate) rule: u8,
    pub(crate) column: u8,
    pub(crate) index: u8,
    pub(crate) items: Items,
    ghost few: { index + length (listed items) ≤ 3 },
}

// What stands in memory for no node. By hand, since a derive is refused over a ghost field.
impl Default for Frame {
    fn default() -> Frame {
        Frame {
            rule: 0,
            column: 0,
            index: 0,
            items: Items::default(),
        }
    }
}
