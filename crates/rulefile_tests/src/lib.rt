// Corner cases of rule files.

#![tactic(auto)]

#[cfg(test)]
mod files;
#[cfg(test)]
mod sizes;
