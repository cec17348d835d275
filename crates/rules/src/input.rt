ghost use Rattle.std.specs.Prelude.{◌≤◌, length, IfOk};

use std::io;
use std::io::Read;

// Fills a buffer from standard input, and tells how many bytes came before its end or that of the input.
pub(crate) fn read_up_to(rt: &HostRuntime, buffer: &mut [u8]) -> io::Result<usize>
    ensures { IfOk result (λ n. n ≤ length buffer.new) }
{
    let mut input = rt.stdin();
    let mut filled = 0;
    while filled < buffer.len() {
        let came = input.read(&mut buffer[filled..])?;
        if came == 0 {
            break;
        }
        filled += came;
    }
    Ok(filled)
}
