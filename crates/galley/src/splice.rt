ghost use Rattle.std.specs.Prelude.{◌≡◌, ◌+◌, ◌-◌, ◌≤◌, length, nat_le};
ghost use Rattle.galley.specs.Parts.{spliced};
ghost use Rattle.galley.specs.Stores.{front, room};

use crate::span::Span;
use crate::store::Store;

impl<T: Copy> Store<'_, T> {
    // Whether there is room for so many elements in place of others.
    pub(crate) fn has_room(&self, gone: Span, count: usize) -> bool
        requires { gone.at + gone.count ≤ self.now.used }
        ensures { result ≡ nat_le (self.now.used - gone.count + count) (room self.now) }
    {
        count <= self.memory.len() - (self.used - gone.count)
    }

    // Exchanges some of the held elements for others.
    pub(crate) fn exchange(&mut self, gone: Span, new: &[T])
        requires within { gone.at + gone.count ≤ self.old.used }
        requires fits { self.old.used - gone.count + length new.now ≤ room self.old }
        ensures used { self.new.used ≡ self.old.used - gone.count + length new.now }
        ensures room { room self.new ≡ room self.old }
        ensures front { front self.new ≡ spliced (front self.old) gone.at gone.count new.now }
    {
        let Span { at, count } = gone;
        let end = at + new.len();
        self.memory.copy_within(at + count..self.used, end);
        self.memory[at..end].copy_from_slice(new);
        self.used = self.used - count + new.len();
    }
}
