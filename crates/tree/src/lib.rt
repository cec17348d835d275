// Trees: node records in preorder over the pieces of a text, and the walk over them in the order of the text.

#![tactic(auto)]

pub mod contents;
pub mod frame;
pub mod judge;
pub mod name_pieces;
pub mod node;
pub mod parts;
pub mod piece;
mod split;
pub mod terminals;
pub mod walk;
pub mod walk_ops;
