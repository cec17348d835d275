ghost use Rattle.std.specs.Prelude.{◌+◌, ◌≤◌, length};

use faults::fault::Position;

// Walks along a text and hands out its pieces, each as a part of the text.
// The offset is kept, since each piece tells where it starts.
#[derive(Drop)]
pub struct PieceReader<'a> {
    pub(crate) text: &'a [u8],
    pub(crate) offset: usize,
    pub(crate) position: Position,
    ghost within: { offset ≤ length text.now },
    ghost near: { offset ≤ 12288 },
    ghost lines: { position.line ≤ offset + 1 },
    ghost columns: { position.column ≤ offset },
}
