// The text of laid-out pieces, read again: it falls into just these pieces at their columns.

#![tactic(auto)]

pub mod laws;
