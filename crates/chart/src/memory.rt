ghost use Rattle.std.specs.Prelude.{◌≡◌, length, replicate};

// Lent chart memory. Whichever way it is let go, every number in it is zero afterwards.
pub struct ChartMemory<'a> {
    pub cells: &'a mut [u64],
}

impl Drop for ChartMemory<'_> {
    fn drop(self)
        ensures { self.exit.0.now ≡ replicate (length self.exit.0.now) 0 }
    {
        self.cells.fill(0);
        let ChartMemory { cells: _ } = self;
    }
}
