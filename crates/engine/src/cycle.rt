// One elementary cycle of the table.
ghost use Rattle.std.specs.Prelude.{◌≡◌, ℕ, ◌≤◌};
ghost use Rattle.engine.specs.Cycle.{Slots, cycle, late_row, word};
ghost use Rattle.engine.specs.Load.{scheduled_units};
ghost use Rattle.engine.specs.Held.{slots, rules_of, rules_by, shows};

use crate::columns::Columns;
use crate::line::{Line, line_up};
use crate::row::Row;
use crate::rules::Rules;
use crate::running::Running;
use bus::rows::{ROWS, RowSet};
use orders::policy::Policy;

// What a cycle did.
#[derive(Clone, Copy)]
pub struct Outcome {
    pub schedule: RowSet,
    // the lowest of the rows that were late
    pub late: Option<u8>,
}

// Runs one cycle on the rows. The window and the policy apart: the master has them so.
pub fn run_cycle<P: Policy>(rows: &mut [Option<Row>; ROWS], window: u8, policy: &P) -> Outcome
    ensures after { slots rows.new ≡ cycle (rules_of (P.Policy.goes policy.now) window) (slots rows.old) }
    ensures word { result.schedule.word ≡ word (rules_of (P.Policy.goes policy.now) window) (slots rows.old) }
    ensures late { result.late ≡ late_row (rules_of (P.Policy.goes policy.now) window) (slots rows.old) }
    ensures within { scheduled_units (rules_of (P.Policy.goes policy.now) window) (slots rows.old) ≤ window }
{
    let mut columns = Columns::of(rows);
    let outcome = columns.run(&Rules { window, policy });
    columns.write_back(rows);
    outcome
}

impl Columns {
    // Runs one cycle.
    pub(crate) fn run<P: Policy>(&mut self, rules: &Rules<P>) -> Outcome
        ensures after { (t : Slots) → shows self.old t → shows self.new (cycle (rules_by P.Policy.goes rules.now) t) }
        ensures word { (t : Slots) → shows self.old t → result.schedule.word ≡ word (rules_by P.Policy.goes rules.now) t }
        ensures late { (t : Slots) → shows self.old t → result.late ≡ late_row (rules_by P.Policy.goes rules.now) t }
    {
        self.release();
        let mut line = Line::new();
        line_up(self, rules, &mut line);
        let schedule = self.serve(&line, rules.window);
        let late = self.first_late();
        self.count_down();
        Outcome { schedule, late }
    }
}

impl Running for Columns {
    ghost shows = { shows };

    fn run<P: Policy>(&mut self, rules: &Rules<P>) -> Outcome {
        Columns::run(self, rules)
    }

    fn waiting(&self) -> RowSet {
        Columns::waiting(self)
    }
}
