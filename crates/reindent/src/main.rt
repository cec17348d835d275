// Reads a script of the block language on standard input and writes it re-indented by four columns a level,
// or one line that tells what is wrong and where, with exit status 1.

#![tactic(auto)]

use formatter::output::print_reindented;
use formatter::refusal::Refusal;
use std::io::{Read, Write};
use std::process::ExitCode;

// One byte more than the longest text that is accepted.
const LIMIT: u64 = 12289;

fn main(rt: HostRuntime) -> anyhow::Result<ExitCode> {
    let mut text = Vec::new(rt.alloc());
    rt.stdin().take(LIMIT).read_to_end(&mut text)?;
    let (printed, code) = match print_reindented(rt.alloc(), text.as_slice()) {
        Ok(script) => (script, ExitCode::SUCCESS),
        Err(Refusal::Fault(line)) => (line.into_bytes(), ExitCode::FAILURE),
        Err(Refusal::Memory(error)) => return Err(error.into()),
    };
    rt.stdout().write_all(printed.as_slice())?;
    Ok(code)
}
