// What a rehearsal takes from the rows: the round, the lead-in, and the rows that wait.
ghost use Rattle.std.specs.Prelude.{◌≡◌, ℕ, ◌%◌, ◌<◌, not, ◌&&◌, ◌||◌, ◌==◌};
ghost use Rattle.bus.specs.Rows.{member};
ghost use Rattle.engine.specs.Rows.{waits};
ghost use Rattle.engine.specs.Cycle.{Slots, used_and};
ghost use Rattle.engine.specs.Rehearsal.{every, first_from, divided_by, round, wait_of, lead_in, settled};
ghost use Rattle.engine.specs.Held.{slots};
ghost use Rattle.engine.specs.Waiting.{waits_at, waiting_word};

use crate::row::Row;
use bus::rows::{ROWS, RowSet};
use orders::instance::Cycles;
use std::array;

// The longest round that a rehearsal takes on.
pub const MOST_CYCLES_IN_ROUND: u16 = 5_040;

// No number has more multiples up to the limit. Each is held against the limit itself: to divide the limit first, for
// each row, took a short rehearsal a quarter longer.
const MOST_MULTIPLES: u32 = MOST_CYCLES_IN_ROUND as u32;

// The least common multiple of two numbers; none where it is above the limit, or where one of them is 0.
fn common_multiple(a: u16, b: u16) -> Option<u16>
    ensures { result ≡ first_from 5040 1 (λ m. (m % a == 0) && m % b == 0) }
{
    if a == 0 || b == 0 {
        return None;
    }
    let step = u32::from(a.max(b));
    let other = u32::from(a.min(b));
    for times in 1..MOST_MULTIPLES + 1 {
        let multiple = times * step;
        if multiple > MOST_MULTIPLES {
            return None;
        }
        if multiple % other == 0 {
            return Some(multiple as u16);
        }
    }
    None
}

// The row's period; for an empty row 1, which divides every number.
fn period_of(slot: Option<Row>) -> u16
    ensures { (m : ℕ) → divided_by slot m ≡ (m % result == 0) }
{
    slot.map_or(1, |row| u16::from(row.figures.period))
}

// The round: the least number of cycles that every used row's period divides; none where it is above the limit.
pub fn round_of(rows: &[Option<Row>; ROWS]) -> Option<u16>
    ensures { result ≡ round 5040 32 (slots rows.now) }
{
    let mut cycles = 1;
    for slot in rows {
        cycles = common_multiple(cycles, period_of(*slot))?;
    }
    Some(cycles)
}

fn row_waits(slot: Option<Row>) -> bool
    ensures { result ≡ used_and waits slot }
{
    slot.is_some_and(Row::waits)
}

fn wait_of(slot: Option<Row>) -> Cycles
    ensures { result ≡ wait_of slot }
{
    slot.map_or(0, |row| row.wait)
}

// The lead-in: the greatest wait, after which every wait is below its period.
pub fn lead_in(rows: &[Option<Row>; ROWS]) -> Cycles
    ensures { result ≡ lead_in 32 (slots rows.now) }
{
    rows.iter()
        .fold(0, |greatest, slot| greatest.max(wait_of(*slot)))
}

// The rows that wait.
pub fn waiting(rows: &[Option<Row>; ROWS]) -> RowSet
    ensures value { result.word ≡ waiting_word 32 (slots rows.now) }
    ensures each { (k : ℕ) → k < 32 → member result.word k ≡ waits_at (slots rows.now) k }
{
    RowSet::from_rows(&array::from_fn(|r| row_waits(rows[r])))
}

// Whether every row that waits at the end also waited at the start.
pub fn has_settled(start: RowSet, end: RowSet) -> bool
    ensures value { result ≡ every 32 (λ k. not (member end.word k) || member start.word k) }
    ensures members { (a b : Slots) → ((k : ℕ) → k < 32 → member start.word k ≡ waits_at a k) → ((k : ℕ) → k < 32 → member end.word k ≡ waits_at b k) → result ≡ settled 32 a b }
    ensures tables { (a b : Slots) → start.word ≡ waiting_word 32 a → end.word ≡ waiting_word 32 b → result ≡ settled 32 a b }
{
    start.word & end.word == end.word
}
