// The tables that are counted.
use crate::board::Board;
use engine::row::Figures;
use ftt::change::Change;
use orders::keyed::RateMonotonic;
use orders::policy::Policy;
use orders::selector::Selector;
use std::iter;

// Rows that are entered alike.
#[derive(Clone, Copy)]
struct Batch {
    count: usize,
    period: u8,
    deadline: u8,
}

fn rows_like(count: usize, period: u8, deadline: u8) -> Batch {
    Batch {
        count,
        period,
        deadline,
    }
}

fn figures(duration: u8, period: u8, deadline: u8, phase: u8, priority: u8) -> Figures {
    Figures {
        duration,
        period,
        deadline,
        phase,
        priority,
    }
}

impl<P: Policy + Drop> Board<P> {
    fn add(&mut self, row: u8, figures: Figures) {
        let _ = self.make(Change::Add { row, figures });
    }

    // Adds the batches from row 0 on, for each row the message that its batch and its number give.
    fn add_batches<F: Fn(Batch, u8) -> Figures>(&mut self, batches: &[Batch], message: F)
        requires { F.IsAlwaysCallable message }
    {
        let each = batches
            .iter()
            .flat_map(|batch| iter::repeat_n(*batch, batch.count));
        for (row, batch) in (0..32).zip(each) {
            self.add(row, message(batch, row));
        }
    }
}

// Priorities against the rows.
pub fn reversed(row: u8) -> u8 {
    31u8.saturating_sub(row)
}

// Priorities across them.
pub fn mixed(row: u8) -> u8 {
    reversed(row).wrapping_mul(13) % 32
}

// So many rows that all wait in every cycle and all fit.
pub fn full<P: Policy + Drop, F: Fn(u8) -> u8>(policy: P, rows: u8, priority: F) -> Board<P>
    requires { F.IsAlwaysCallable priority }
{
    let mut board = Board::new(policy);
    for row in 0..rows {
        board.add(row, figures(6, 1, 1, 0, priority(row)));
    }
    board
}

// A table of 26 rows with a round of 200 cycles.
pub fn cart<P: Policy + Drop>(policy: P) -> Board<P> {
    let batches = [
        rows_like(8, 1, 1),
        rows_like(2, 2, 2),
        rows_like(4, 10, 4),
        rows_like(6, 20, 20),
        rows_like(6, 200, 200),
    ];
    let mut board = Board::new(policy);
    let _ = board.make(Change::Window { window: 230 });
    board.add_batches(&batches, |batch, _| {
        figures(23, batch.period, batch.deadline, 0, 0)
    });
    board
}

// A 27th row for it. The priority varies from turn to turn, so that no two are the same question; the turn is meant to
// be cut, which `try_from` would refuse.
pub fn one_more(turn: u32) -> Figures {
    figures(23, 200, 200, 0, (turn & 255) as u8)
}

// 31 rows that take the whole window each, and settle.
pub fn crowd() -> Board<Selector> {
    let batches = [
        rows_like(17, 36, 36),
        rows_like(5, 24, 24),
        rows_like(1, 16, 16),
        rows_like(8, 35, 35),
    ];
    let mut board = Board::new(Selector::EarliestDeadline);
    board.add_batches(&batches, |batch, row| {
        figures(255, batch.period, batch.deadline, row, 0)
    });
    board
}

// The last row of the crowd asks for one cycle more than a round has. The turn is meant to be cut, as above.
pub fn last_in_crowd(turn: u32) -> Figures {
    figures(255, 35, 35, 255, (turn & 255) as u8)
}

// Two periods whose least common multiple is the round.
fn periods_for(round: u32) -> (u8, u8) {
    match round {
        10 => (10, 5),
        100 => (25, 4),
        200 => (200, 8),
        1_000 => (125, 8),
        2_520 => (63, 40),
        5_040 => (144, 35),
        _ => (1, 1),
    }
}

// 16 rows with two periods by turns.
pub fn two_periods(round: u32) -> Board<RateMonotonic> {
    let (even, odd) = periods_for(round);
    let mut board = Board::new(RateMonotonic);
    for row in 0..16 {
        let period = if row % 2 == 0 { even } else { odd };
        board.add(row, figures(15, period, period, 0, 0));
    }
    board
}
