// Trees by the shapes of their nodes: what is below a node, and over which pieces, without a grammar.

#![tactic(auto)]

mod count;
pub mod facts;
pub mod preorder;
pub mod tell;
