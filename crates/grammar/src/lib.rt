// Grammars: what one tells, the law that it keeps, and the built-in block language.

#![tactic(auto)]

pub mod block;
mod block_rules;
pub mod grammar;
pub mod rule;
pub mod several;
