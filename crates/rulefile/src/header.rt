ghost use Rattle.std.specs.Prelude.{◌≡◌, true, if◌then◌else◌, Some, None};
ghost use Rattle.std.specs.Option.{option_map};
ghost use Rattle.rulefile.specs.Parts.{values, seven_names, under};

use crate::parts;

// The first line of a file, which names its columns.
#[derive(Clone, Copy)]
pub(crate) struct Header<'a> {
    pub(crate) names: &'a [u8],
    ghost seven: { seven_names names.now ≡ true },
}

impl<'a> Header<'a> {
    // The header of that line, if it is the seven names.
    pub(crate) fn new(line: &'a [u8]) -> Option<Header<'a>>
        ensures { option_map (λ h. h.names.now) result ≡ (if seven_names line.now then Some line.now else None) }
    {
        if parts::has_seven_names(line) {
            Some(Header { names: line })
        } else {
            None
        }
    }

    // The value of a line that stands under a name; no bytes if there is none.
    // No Option, since no bytes are wrong in every column, and so is a value that is missing.
    pub(crate) fn value<'l>(&self, name: &[u8], line: &'l [u8]) -> &'l [u8]
        ensures { result.now ≡ under name.now (values self.now.names.now) (values line.now) }
    {
        parts::values(self.names)
            .zip(parts::values(line))
            .find(|(own, _)| *own == name)
            .map_or(&[], |(_, value)| value)
    }
}
