use crate::stretch::Stretch;
use arrayvec::ArrayVec;

// A node of the first reading that is still to be written: its nonterminal and column, and the stretch of tokens that it covers.
// That a node that waits is due in this chart is asked beside it, for the reason that a stretch gives.
#[derive(Clone, Copy, Default)]
pub(crate) struct Waiting {
    pub(crate) symbol: u8,
    pub(crate) column: u8,
    pub(crate) stretch: Stretch,
}

// The nodes that wait, the next one last. They cover different tokens, so they are as many as those at most.
pub(crate) type Stack = ArrayVec<Waiting, 128>;
