ghost use Rattle.std.specs.Prelude.{◌≡◌};

use faults::fault::Fault;

// The right to the text of a laid galley: the galley's number and the text's length.
// A slip has to be spent, by write or release; the compiler refuses a slip that is forgotten or used twice.
pub struct Slip {
    pub(crate) number: u16,
    pub(crate) length: u16,
}

// A refusal that hands the slip back.
pub struct Declined {
    pub fault: Fault,
    pub slip: Slip,
}

impl Slip {
    // The refusal of this slip for that fault.
    pub(crate) fn declined(self, fault: Fault) -> Declined
        ensures { result ≡ record { fault = fault; slip = self } }
    {
        Declined { fault, slip: self }
    }
}
