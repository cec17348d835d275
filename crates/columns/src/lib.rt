// Columns of a line, from 0 to 63: how an item's column stands to its node's, and sets of columns as 64-bit masks.

#![tactic(auto)]

mod display;
pub mod mask;
pub mod relation;
