ghost use Rattle.std.specs.Prelude.{◌≡◌, [], length, if◌then◌else◌, Some, None, nat_le};
ghost use Rattle.std.specs.Option.{option_map};
ghost use Rattle.std.specs.Str.{bytes_eq};
ghost use Rattle.std.specs.Cmp.{on_per, partial_equiv_from_equiv, nat_eq_equiv};
ghost use Rattle.std.specs.Cmp.Lexicographic.{lists_per};
ghost use Rattle.rulefile.specs.Spelled.{spelled};

use crate::spelling::Spelling;
use crate::word::Word;

impl Spelling {
    // These bytes, if they are at most 12. An Option: those who ask refuse with different faults.
    pub(crate) fn new(bytes: &[u8]) -> Option<Spelling>
        ensures { option_map spelled result ≡ (if nat_le (length bytes.now) 12 then Some bytes.now else None) }
    {
        if bytes.len() > 12 {
            return None;
        }
        let mut held = [0; 12];
        held[..bytes.len()].copy_from_slice(bytes);
        Some(Spelling {
            bytes: held,
            size: bytes.len() as u8,
        })
    }

    // The bytes.
    pub fn as_slice(&self) -> &[u8]
        ensures { result.now ≡ spelled self.now }
    {
        &self.bytes[..self.size as usize]
    }
}

// No bytes. By hand: a type with a ghost field derives no Default.
impl Default for Spelling {
    ghost is_default = { λ s. spelled s ≡ [] };

    fn default() -> Spelling {
        Spelling {
            bytes: [0; 12],
            size: 0,
        }
    }
}

// By the bytes that count; a derive would compare those behind them too.
impl PartialEq for Spelling {
    ghost eq = { λ v w. bytes_eq (spelled v) (spelled w) };

    ghost laws = { on_per spelled (lists_per (partial_equiv_from_equiv nat_eq_equiv)) };

    fn eq(&self, other: &Spelling) -> bool {
        self.as_slice() == other.as_slice()
    }
}

impl Word {
    // What the word spells.
    pub fn spelling(&self) -> Spelling
        ensures { result ≡ self.now.spelling }
    {
        self.spelling
    }
}
