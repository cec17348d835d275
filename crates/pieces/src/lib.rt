// The pieces of a text: names, numbers, quotes and signs.

#![tactic(auto)]

mod classes;
pub mod kind;
pub mod lexeme;
pub mod next;
pub mod piece;
pub mod reader;
