ghost use Rattle.std.specs.Prelude.{◌≡◌};
ghost use Rattle.formatter.specs.declared.refusal.Refusal.TheVariants.{Memory};

use std::alloc::AllocError;

// Why a text is not printed re-indented.
#[derive(Drop)]
pub enum Refusal {
    // The line of the fault that refuses it.
    Fault(String),
    // There is no memory for what is to be printed.
    Memory(AllocError),
}

impl From<AllocError> for Refusal {
    ghost from_gives = { λ e r. r ≡ Memory e };

    fn from(error: AllocError) -> Refusal {
        Refusal::Memory(error)
    }
}
