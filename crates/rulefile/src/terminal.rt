use crate::word::Word;

// A terminal of a rule file: a class of pieces, or a word.
#[derive(Clone, Copy, Default, PartialEq)]
pub enum Terminal {
    #[default]
    Name,
    Number,
    Quote,
    Word(Word),
}
