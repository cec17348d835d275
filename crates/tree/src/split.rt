ghost use Rattle.std.specs.Prelude.{◌≡◌, ◌+◌, ◌≤◌, ◌∷◌, length};
ghost use Rattle.grammar.specs.Several.{listed};
ghost use Rattle.tree.specs.Slots.{frame_slots, rest_slots, slot_at, slots_behind};

use crate::frame::Frame;
use grammar::rule::{Item, Items};

impl Frame {
    // The item that comes next, and the node with the items behind it, if there are any.
    pub(crate) fn split(&self) -> (Item, Option<Frame>)
        ensures { frame_slots self.now ≡ slot_at self.now result.0 ∷ rest_slots result.1 }
    {
        match self.items {
            Items::One(x) => (x, None),
            Items::Two(x, y) => (x, Some(self.behind(Items::One(y)))),
            Items::Three(x, y, z) => (x, Some(self.behind(Items::Two(y, z)))),
        }
    }

    // The node with these items behind its next one.
    fn behind(&self, items: Items) -> Frame
        requires { self.now.index + 1 + length (listed items) ≤ 3 }
        ensures { frame_slots result ≡ slots_behind self.now items }
    {
        Frame {
            rule: self.rule,
            column: self.column,
            index: self.index + 1,
            items,
        }
    }
}
