// Rule files: a grammar as text, and the grammar that such a text means.

#![tactic(auto)]

mod adding;
mod display;
pub(crate) mod form;
mod forms;
pub(crate) mod header;
mod lines;
pub mod load;
pub mod loaded;
pub mod loaded_grammar;
mod numbering;
mod numbers;
mod parts;
pub(crate) mod row;
mod rows;
pub mod spelling;
mod spellings;
pub mod table;
pub mod terminal;
mod terminals;
mod values;
pub mod word;
