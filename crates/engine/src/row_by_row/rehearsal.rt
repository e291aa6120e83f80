// The rehearsal of a table on a copy, cycle by cycle and row by row.
ghost use Rattle.std.specs.Prelude.{◌≡◌, ℕ, Some};
ghost use Rattle.engine.specs.Held.{slots, rules_of};
ghost use Rattle.engine.specs.Verdicts.{Foretells};

use crate::cycle::Outcome;
use crate::rehearsal::rehearse_on;
use crate::round::{round_of, waiting};
use crate::row::Row;
use crate::row_by_row::cycle::run_cycle;
use crate::rules::Rules;
use crate::running::Running;
use crate::verdict::Verdict;
use bus::rows::{ROWS, RowSet};
use orders::policy::Policy;

impl Running for [Option<Row>; ROWS] {
    ghost shows = { λ rows t. slots rows ≡ t };

    fn run<P: Policy>(&mut self, rules: &Rules<P>) -> Outcome {
        run_cycle(self, rules.window, rules.policy)
    }

    fn waiting(&self) -> RowSet {
        waiting(self)
    }
}

// The verdict on a table; none where its round is too long to rehearse. The table itself is left as it is.
pub fn rehearse<P: Policy>(rows: &[Option<Row>; ROWS], window: u8, policy: &P) -> Option<Verdict>
    ensures { Foretells (rules_of (P.Policy.goes policy.now) window) (slots rows.now) result }
{
    let round = round_of(rows)?;
    let mut copy = *rows;
    Some(rehearse_on(&mut copy, rows, &Rules { window, policy }, round))
}
