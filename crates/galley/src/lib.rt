// Galleys, which hold scripts as trees: read, lay, write and release, and what they tell.

#![tactic(auto)]

pub mod galley;
pub mod held;
pub mod lay;
pub mod load;
pub mod new;
pub mod piece_facts;
pub mod print;
pub mod read;
pub mod release;
pub mod slip;
mod source;
mod span;
mod spend;
mod splice;
pub mod store;
mod sum;
pub mod tell;
pub mod write;
