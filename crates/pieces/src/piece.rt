use faults::fault::Position;

// What a piece is.
#[derive(Clone, Copy)]
pub enum Class {
    // begins with a letter and takes in all letters, digits and underscores behind it
    Name,
    // takes in all digits in a row
    Number,
    // printable bytes between two quote bytes, which belong to it
    Quote,
    // one byte of : ; = ( ) { } , + - * / < >
    Sign,
}

// A piece: a part of a text that stands for itself, with its class, where in the text it starts, and the line and column of its first byte.
#[derive(Clone, Copy)]
pub struct Piece<'a> {
    pub bytes: &'a [u8],
    pub class: Class,
    pub start: u16,
    pub position: Position,
}
