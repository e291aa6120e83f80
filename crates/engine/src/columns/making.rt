// The columns of a table, and their counters written back.
ghost use Rattle.std.specs.Prelude.{◌≡◌};
ghost use Rattle.engine.specs.Held.{slots, shows, counted};

use crate::columns::Columns;
use crate::row::Row;
use bus::rows::ROWS;
use orders::instance::Instance;

// What a policy sees of an empty row: its instances, which come seldom, have no cycle left and so never wait. A
// column of `Option`s would be no plainer, and no column of bytes.
const EMPTY_ROW: Instance = Instance {
    row: 0,
    duration: 0,
    period: 255,
    deadline: 0,
    priority: 0,
    left: 0,
};

impl Columns {
    // The columns of a table, filled by one pass over its rows: a pass for each column took `next` up to a third more
    // instructions. An empty row waits as long as it can, so that it is seldom due.
    pub(crate) fn of(rows: &[Option<Row>; ROWS]) -> Columns
        ensures { shows result (slots rows.now) }
    {
        let mut kinds = [EMPTY_ROW; ROWS];
        let mut periods = [EMPTY_ROW.period; ROWS];
        let mut deadlines = [EMPTY_ROW.deadline; ROWS];
        let mut waits = [EMPTY_ROW.period; ROWS];
        let mut lefts = [EMPTY_ROW.left; ROWS];
        for (r, slot) in rows.iter().enumerate() {
            if let Some(row) = slot {
                kinds[r] = row.instance(0);
                periods[r] = row.figures.period;
                deadlines[r] = row.figures.deadline;
                waits[r] = row.wait;
                lefts[r] = row.left;
            }
        }
        Columns {
            kinds,
            periods,
            deadlines,
            waits,
            lefts,
        }
    }

    // Writes the counters into the rows that are used.
    pub(crate) fn write_back(&self, rows: &mut [Option<Row>; ROWS])
        ensures { slots rows.new ≡ counted self.now.waits self.now.lefts (slots rows.old) }
    {
        for (r, slot) in rows.iter_mut().enumerate() {
            if let Some(row) = *slot {
                *slot = Some(Row {
                    wait: self.waits[r],
                    left: self.lefts[r],
                    ..row
                });
            }
        }
    }
}
