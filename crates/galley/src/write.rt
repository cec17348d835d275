ghost use Rattle.galley.specs.Writes.{Writes, Puts};

use crate::galley::Galley;
use crate::slip::{Declined, Slip};
use faults::fault::Fault;
use layout::text::write_text;

impl Galley<'_> {
    // Puts the held text into the buffer from `start` on and answers its length; none where it does not fit.
    fn put_text(&self, buffer: &mut [u8], start: usize) -> Option<usize>
        ensures { Puts self.now buffer.old start result buffer.new }
    {
        if start > buffer.len() {
            return None;
        }
        write_text(&self.held.contents(), &mut buffer[start..])
    }

    // Puts the laid text into the buffer from `start` on, spends the slip and answers the text's length.
    pub fn write(&mut self, slip: Slip, buffer: &mut [u8], start: usize) -> Result<usize, Declined>
        ensures { Writes slip self.old buffer.old start result self.new buffer.new }
    {
        let slip = self.take_slip(slip)?;
        // No ok_or: the slip is still needed where the text fits.
        let Some(length) = self.put_text(buffer, start) else {
            return Err(slip.declined(Fault::NoRoom));
        };
        self.let_go(slip);
        Ok(length)
    }
}
