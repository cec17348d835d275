// Laying a tree out as text: where each piece stands, and the text itself.

#![tactic(auto)]

mod answer;
pub mod lay_out;
mod lead;
mod line;
mod line_writer;
mod place;
pub mod placement;
pub mod placements;
mod placer;
pub mod text;
