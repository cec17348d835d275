ghost use Rattle.std.specs.Prelude.{◌≡◌, [], MatchOption};
ghost use Rattle.std.specs.Iterator.{YieldsFirstRef, item_count};
ghost use Rattle.rulefile.specs.Parts.{Splits, parts, values, ends_with, seven_values, seven_names, among};

// The parts of some bytes that are left: what ends at a separator, or at the end unless nothing is left there.
#[derive(Drop)]
pub(crate) struct Parts<'a> {
    rest: &'a [u8],
    separator: u8,
}

// The first part of some bytes, and what stands behind its separator; none if there are no bytes.
pub(crate) fn first_part(bytes: &[u8], separator: u8) -> Option<(&[u8], &[u8])>
    ensures { MatchOption result (bytes.now ≡ []) (λ p. Splits separator bytes.now p.0.now p.1.now) }
{
    if bytes.is_empty() {
        return None;
    }
    match bytes.iter().position(|byte| *byte == separator) {
        Some(end) => Some((&bytes[..end], &bytes[end + 1..])),
        None => Some((bytes, &[])),
    }
}

impl<'a> Iterator for Parts<'a> {
    type Item = &'a [u8];

    ghost next_gives = { YieldsFirstRef (λ p. parts p.separator p.rest.now) };

    ghost remaining = { item_count (λ p. parts p.separator p.rest.now) };

    fn next(&mut self) -> Option<&'a [u8]> {
        let (part, behind) = first_part(self.rest, self.separator)?;
        self.rest = behind;
        Some(part)
    }
}

// The lines of a file.
pub(crate) fn lines(file: &[u8]) -> Parts<'_>
    ensures rest { result.rest.now ≡ file.now }
    ensures separator { result.separator ≡ 10 }
{
    Parts {
        rest: file,
        separator: b'\n',
    }
}

// The values of a line.
pub(crate) fn values(line: &[u8]) -> Parts<'_>
    ensures rest { result.rest.now ≡ line.now }
    ensures separator { result.separator ≡ 32 }
{
    Parts {
        rest: line,
        separator: b' ',
    }
}

fn ends_with_space(line: &[u8]) -> bool
    ensures { result ≡ ends_with 32 line.now }
{
    matches!(line, [.., b' '])
}

// Whether a line is seven values with single spaces.
pub(crate) fn has_seven_values(line: &[u8]) -> bool
    ensures { result ≡ seven_values line.now }
{
    // One walk and no chain, since a line may be long; it ends at the first empty value, and at the eighth.
    let mut count = 0usize;
    for value in values(line) {
        if value.is_empty() || count == 7 {
            return false;
        }
        count += 1;
    }
    count == 7 && !ends_with_space(line)
}

// Whether a name is among the values of a line.
fn has_value(line: &[u8], name: &[u8]) -> bool
    ensures { result ≡ among (values line.now) name.now }
{
    values(line).any(|value| value == name)
}

// The names of the columns.
const NAMES: [&[u8]; 7] = [
    b"left", b"sym1", b"rel1", b"sym2", b"rel2", b"sym3", b"rel3",
];

// Whether a line is the seven names, each once, with single spaces.
pub(crate) fn has_seven_names(line: &[u8]) -> bool
    ensures { result ≡ seven_names line.now }
{
    has_seven_values(line) && NAMES.iter().all(|name| has_value(line, name))
}
