use crate::held::Held;

// A galley holds nothing, or a tree with its pieces, in memories that its maker lends.
// It is laid while it keeps the text of its tree, of that length, for the slip that goes with it.
#[derive(Drop)]
pub struct Galley<'a> {
    pub(crate) number: u16,
    pub(crate) held: Held<'a>,
    pub(crate) laid: Option<u16>,
}
