use arrayvec::ArrayVec;

// Where a piece stands: its column, and whether it opens a new line.
#[derive(Clone, Copy, Default)]
pub struct Placement {
    pub column: u8,
    pub opens_line: bool,
}

// The placements of the pieces of a tree, at most 128.
// Beside the pieces, so that a refusal leaves them as they are.
#[derive(Drop)]
pub struct Layout {
    pub(crate) list: ArrayVec<Placement, 128>,
}
