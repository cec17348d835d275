// Shows what the engine understands of a rule file on standard input.

#![tactic(auto)]

mod input;
mod listing;

use listing::Listing;
use rulefile::loaded::LoadedGrammar;
use std::io;
use std::process::ExitCode;

// One byte more than the longest rule file that is accepted.
const LIMIT: usize = 4097;

// Prints what the rule file means, or why it is refused, with exit status 1.
fn main(rt: HostRuntime) -> io::Result<ExitCode> {
    // Read without a heap, so that no file is refused for want of memory.
    let mut file = [0; LIMIT];
    let length = input::read_up_to(&rt, &mut file)?;
    match LoadedGrammar::load(&file[..length]) {
        Ok(grammar) => {
            let listing = Listing {
                rt: &rt,
                grammar: &grammar,
            };
            listing.print()?;
            Ok(ExitCode::SUCCESS)
        }
        Err(fault) => {
            listing::print_fault(&rt, fault)?;
            Ok(ExitCode::FAILURE)
        }
    }
}
