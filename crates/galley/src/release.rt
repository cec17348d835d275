ghost use Rattle.galley.specs.Writes.{Releases};

use crate::galley::Galley;
use crate::slip::{Declined, Slip};

impl Galley<'_> {
    // Spends the slip and lets the laid text go.
    pub fn release(&mut self, slip: Slip) -> Result<(), Declined>
        ensures { Releases slip self.old result self.new }
    {
        let slip = self.take_slip(slip)?;
        self.let_go(slip);
        Ok(())
    }
}
