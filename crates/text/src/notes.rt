use crate::token::Token;
use arrayvec::ArrayVec;
use faults::fault::Position;

// What is noted of the pieces of a text while it is read.
#[derive(Default, Drop)]
pub struct Notes {
    // also the pieces that give no token
    pub count: usize,
    pub out_of_bounds: Option<Position>,
    pub unknown: Option<Position>,
    pub tokens: ArrayVec<Token, 128>,
}
