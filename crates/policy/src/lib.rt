// Policies: where an item goes when a tree is laid out.

#![tactic(auto)]

pub mod hanging;
pub mod minimal;
pub mod policy;
pub mod question;
pub mod step;
