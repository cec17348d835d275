use crate::line::Line;
use crate::placement::Placement;
use arrayvec::ArrayVec;

// The placements of the pieces so far, and the line behind them.
#[derive(Default, Drop)]
pub struct Placer {
    pub(crate) list: ArrayVec<Placement, 128>,
    pub(crate) line: Line,
}
