// Rows of small tables.
use bus::rows::ROWS;
use engine::row::{Figures, Row};

// A message due by its next release, which comes after `wait` cycles.
pub fn waiting_for(duration: u8, period: u8, wait: u8) -> Option<Row> {
    let figures = Figures {
        duration,
        period,
        deadline: period,
        phase: wait,
        priority: 0,
    };
    Some(Row {
        figures,
        wait,
        left: 0,
    })
}

// One about to release its first instance.
pub fn fresh(duration: u8, period: u8) -> Option<Row> {
    waiting_for(duration, period, 0)
}

// Messages of these durations and periods that all release in the first cycle.
pub fn table(messages: &[(u8, u8)]) -> [Option<Row>; ROWS] {
    let mut rows = [None; ROWS];
    for (row, (duration, period)) in rows.iter_mut().zip(messages) {
        *row = fresh(*duration, *period);
    }
    rows
}
