// What a galley tells of a piece: where its bytes begin among the held bytes, how many they are, and its terminal.
#[derive(Clone, Copy)]
pub struct PieceFacts {
    pub place: usize,
    pub length: u8,
    pub terminal: u8,
}
