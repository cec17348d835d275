// The chart of column sets over the tokens of a text, and the first reading that it gives.

#![tactic(auto)]

mod chart;
mod fill;
mod filled;
mod item_row;
pub mod memory;
mod part;
mod pick;
mod place;
mod reach;
pub mod read;
mod row;
mod stretch;
mod waiting;
mod walk;
