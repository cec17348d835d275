// Re-indenting scripts of the block language: from text to text, or to the fault line.

#![tactic(auto)]

pub mod output;
pub mod refusal;
pub mod reindent;
