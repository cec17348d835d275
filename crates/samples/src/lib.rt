// Sample scripts with what the engine makes of them.

#![tactic(auto)]

#[cfg(test)]
mod desk;
#[cfg(test)]
mod faults_told;
#[cfg(test)]
mod readings;
#[cfg(test)]
mod texts;
