ghost use Rattle.std.specs.Prelude.{◌≡◌, ◌≤◌, IfNone, position};
ghost use Rattle.rulefile.specs.Places.{Numbers};

use arrayvec::ArrayVec;

// Where the first element stands that equals this one.
fn place<T: PartialEq>(known: &[T], element: &T) -> Option<usize>
    ensures { result ≡ position (λ other. T.eq other element.now) known.now }
{
    known.iter().position(|other| other == element)
}

// The number of an element, which is added at the end if no known one equals it.
// None where there is no room; there is nothing else to say of it.
pub(crate) fn number<T: PartialEq + Copy, const N: usize>(
    known: &mut ArrayVec<T, N>,
    element: T,
) -> Option<u8>
    requires { N ≤ 256 }
    ensures numbered { Numbers (λ x y. T.eq y x) N known.old.items element result known.new.items }
    ensures full { IfNone result (known.new ≡ known.old) }
{
    if let Some(at) = place(known.as_slice(), &element) {
        return Some(at as u8);
    }
    let at = known.len();
    known.try_push(element).ok()?;
    Some(at as u8)
}
