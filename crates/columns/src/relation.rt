// How an item's column stands to the column of its node.
#[derive(Clone, Copy, Default)]
pub enum Relation {
    // the node's column
    #[default]
    Equal,
    // above the node's column
    Above,
    // at least the node's column
    AtLeast,
    // any column
    Any,
}
