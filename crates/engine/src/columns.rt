// The table in columns, for cycles in a row: so a cycle tests and counts many rows at once. Columns and no array of
// rows: over rows (`row_by_row`) a cycle with 32 waiting takes 11,905 instructions, and 5,160 is the limit.
ghost use Rattle.engine.specs.Columns.{InStep};

use bus::rows::ROWS;
use orders::instance::{Cycles, Instance};

mod counting;
mod making;
mod serving;

#[derive(Drop)]
pub struct Columns {
    // what a policy sees of each row
    kinds: [Instance; ROWS],
    // the periods and the deadlines that it sees
    periods: [Cycles; ROWS],
    deadlines: [Cycles; ROWS],
    // the cycles until each row's next release
    waits: [Cycles; ROWS],
    // the cycles to the deadline of each row's waiting instance; 0 where none waits
    lefts: [Cycles; ROWS],
    ghost in_step: { InStep kinds periods deadlines waits lefts },
}
