ghost use Rattle.std.specs.Prelude.{◌≡◌, None};
ghost use Rattle.galley.specs.Writes.{spend_fault, Unlaid, Spends};

use crate::galley::Galley;
use crate::slip::{Declined, Slip};
use faults::fault::Fault;

impl Galley<'_> {
    // The slip, if it is this galley's, which is laid.
    pub(crate) fn take_slip(&self, slip: Slip) -> Result<Slip, Declined>
        ensures { Spends slip self.now result }
    {
        if self.laid.is_some() && slip.number == self.number {
            Ok(slip)
        } else {
            Err(slip.declined(Fault::WrongSlip))
        }
    }

    // Spends a slip of this galley, which is laid.
    pub(crate) fn let_go(&mut self, slip: Slip)
        requires { spend_fault slip self.old ≡ None }
        ensures { Unlaid self.old self.new }
    {
        let Slip {
            number: _,
            length: _,
        } = slip;
        self.laid = None;
    }
}
