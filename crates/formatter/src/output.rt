ghost use Rattle.std.specs.Prelude.{◌≡◌, IfOk};
ghost use Rattle.std.specs.String.{string_bytes};
ghost use Rattle.faults.specs.Line.{fault_line};
ghost use Rattle.formatter.specs.Output.{Prints};

use crate::refusal::Refusal;
use crate::reindent::reindent;
use faults::fault::Fault;
use std::alloc::{AllocError, Global};

// The most bytes that a re-indented script has: 128 lines of 96.
const MOST: usize = 12288;

// The line that tells a fault: its number, and the line and column that it points at, 0 for what it lacks.
pub fn fault_line(heap: Global, fault: &Fault) -> Result<String, AllocError>
    ensures { IfOk result (λ s. string_bytes s ≡ fault_line fault.now) }
{
    format!(in heap; "{fault}\n")
}

// What the program prints for a text: the re-indented script, or the line of the fault.
pub fn print_reindented(heap: Global, text: &[u8]) -> Result<Vec<u8>, Refusal>
    ensures { Prints text.now result }
{
    let mut out = [0; MOST];
    // No map_err: the line of a fault is made on the heap, which may refuse.
    match reindent(text, &mut out) {
        Ok(length) => Ok(out[..length].to_vec(heap)?),
        Err(fault) => Err(Refusal::Fault(fault_line(heap, &fault)?)),
    }
}
