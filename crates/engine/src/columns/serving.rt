// The schedule along a line.
ghost use Rattle.std.specs.Prelude.{◌≡◌, ℕ, ◌<◌};
ghost use Rattle.engine.specs.Held.{RowsBelow, Served, Full};

use crate::columns::Columns;
use crate::line::{Line, duration};
use bus::rows::RowSet;

impl Columns {
    // Schedules the instances along the line, up to the first that does not fit; what is scheduled waits no longer.
    pub(crate) fn serve(&mut self, line: &Line, window: u8) -> RowSet
        requires { RowsBelow 32 line.now.items }
        ensures kinds { self.new.kinds ≡ self.old.kinds }
        ensures waits { self.new.waits ≡ self.old.waits }
        ensures served { (n : ℕ) × Served line.now.items window n result.word self.old.lefts self.new.lefts × Full line.now.items window n }
    {
        let mut word = 0;
        let mut taken = 0;
        for next in line.as_slice() {
            taken += duration(*next);
            if taken > u16::from(window) {
                return RowSet { word };
            }
            self.lefts[usize::from(next.row)] = 0;
            word |= 1 << next.row;
        }
        RowSet { word }
    }
}
