ghost use Rattle.std.specs.Prelude.{◌≤◌, length};

use arrayvec::ArrayVec;

// The terminals of the pieces of a tree, at most 128.
// A list of their own: a tree may be laid out under another grammar than its pieces were read by.
#[derive(Drop)]
pub struct Terminals {
    pub(crate) list: ArrayVec<u8, 128>,
    ghost few: { length list.items ≤ 128 },
}
