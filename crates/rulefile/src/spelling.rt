ghost use Rattle.std.specs.Prelude.{◌≤◌};

// At most 12 bytes. An array with a size, since a spelling is copied and an ArrayVec is not.
#[derive(Clone, Copy)]
pub struct Spelling {
    pub(crate) bytes: [u8; 12],
    pub(crate) size: u8,
    ghost few: { size ≤ 12 },
}
