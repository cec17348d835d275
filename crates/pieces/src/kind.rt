ghost use Rattle.std.specs.Prelude.{◌≡◌};
ghost use Rattle.pieces.specs.Kinds.{letter, digit, sign, goes_on, quotable, kind_of, class_for};

use crate::piece::Class;

// What a byte is where a piece may begin.
#[derive(Clone, Copy)]
pub enum Kind {
    LineEnd,
    Separator,
    Letter,
    Digit,
    Quote,
    Sign,
    Other,
}

// Whether that byte is a letter. By ranges, here and below, as the definitions of pieces name them.
fn is_letter(byte: u8) -> bool
    ensures { result ≡ letter byte }
{
    matches!(byte, b'A'..=b'Z' | b'a'..=b'z')
}

// Whether that byte is a sign.
fn is_sign(byte: u8) -> bool
    ensures { result ≡ sign byte }
{
    matches!(byte, b'('..=b'-' | b'/' | b':'..=b'>' | b'{' | b'}')
}

// Whether a name runs on through that byte.
pub fn goes_on(byte: u8) -> bool
    ensures { result ≡ goes_on byte }
{
    matches!(byte, b'A'..=b'Z' | b'a'..=b'z' | b'0'..=b'9' | b'_')
}

// Whether that byte may stand inside a quote.
pub(crate) fn is_quotable(byte: u8) -> bool
    ensures { result ≡ quotable byte }
{
    matches!(byte, b' '..=b'~') && byte != b'"'
}

// What a byte begins.
impl From<u8> for Kind {
    ghost from_gives = { λ byte kind. kind ≡ kind_of byte };

    fn from(byte: u8) -> Kind {
        match byte {
            b'\n' => Kind::LineEnd,
            b' ' => Kind::Separator,
            b if is_letter(b) => Kind::Letter,
            b'0'..=b'9' => Kind::Digit,
            b'"' => Kind::Quote,
            b if is_sign(b) => Kind::Sign,
            _ => Kind::Other,
        }
    }
}

impl Kind {
    // The class of the piece that such a byte begins; none where it begins none.
    pub fn class(self) -> Option<Class>
        ensures { result ≡ class_for self }
    {
        match self {
            Kind::Letter => Some(Class::Name),
            Kind::Digit => Some(Class::Number),
            Kind::Quote => Some(Class::Quote),
            Kind::Sign => Some(Class::Sign),
            Kind::LineEnd | Kind::Separator | Kind::Other => None,
        }
    }
}
