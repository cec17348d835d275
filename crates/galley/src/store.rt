ghost use Rattle.std.specs.Prelude.{◌≡◌, ◌≤◌, length};

// A memory of any size that a caller lends, of which the front is used.
#[derive(Drop)]
pub struct Store<'a, T> {
    pub(crate) memory: &'a mut [T],
    pub(crate) used: usize,
    ghost fit: { used ≤ length memory.now },
}

impl<'a, T> Store<'a, T> {
    ghost use Rattle.galley.specs.Stores.{front, room};

    // That memory, with nothing used.
    pub(crate) fn new(memory: &'a mut [T]) -> Store<'a, T>
        ensures memory { result.memory ≡ memory.entry }
        ensures unused { result.used ≡ 0 }
    {
        Store { memory, used: 0 }
    }

    // How many elements it takes.
    pub(crate) fn room(&self) -> usize
        ensures { result ≡ room self.now }
    {
        self.memory.len()
    }

    // What is held.
    pub(crate) fn front(&self) -> &[T]
        ensures { result.now ≡ front self.now }
    {
        &self.memory[..self.used]
    }
}
