// A text under a grammar: its tokens, or the first reason to refuse it.

#![tactic(auto)]

pub mod notes;
pub mod scan;
pub mod token;
pub mod tokens;
