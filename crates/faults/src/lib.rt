// Every refusal of the engine, in one closed list.

#![tactic(auto)]

mod display;
pub mod fault;
pub mod told;
