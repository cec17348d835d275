// Neighbouring elements of a memory: the number of the first, and how many they are.
// Copied, as a Range is not.
#[derive(Clone, Copy)]
pub(crate) struct Span {
    pub(crate) at: usize,
    pub(crate) count: usize,
}

// Neighbouring pieces, with their bytes and nodes.
#[derive(Clone, Copy)]
pub(crate) struct Stretch {
    pub(crate) bytes: Span,
    pub(crate) pieces: Span,
    pub(crate) nodes: Span,
}
