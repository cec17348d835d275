// A held piece: how many bytes it has, and its terminal under the grammar that it was read by.
// While the tree is laid out, also the column where the piece stands and whether it opens a new line.
// Column and line break stand one by one, since a placement belongs to the layout above.
#[derive(Clone, Copy, Default)]
pub struct PieceRecord {
    pub length: u8,
    pub terminal: u8,
    pub column: u8,
    pub opens_line: bool,
}
