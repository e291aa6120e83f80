// A table that runs cycles, in whatever form it keeps its rows.
ghost use Rattle.std.specs.Prelude.{◌≡◌, ℕ, ◌<◌};
ghost use Rattle.bus.specs.Rows.{member};
ghost use Rattle.engine.specs.Cycle.{Slots, cycle, late_row};
ghost use Rattle.engine.specs.Held.{rules_by};
ghost use Rattle.engine.specs.Waiting.{waits_at};

use crate::cycle::Outcome;
use crate::rules::Rules;
use bus::rows::RowSet;
use orders::policy::Policy;

pub trait Running {
    // The table holds these rows.
    ghost shows: { Self → Slots → Type 0 };

    // Runs one cycle.
    fn run<P: Policy>(&mut self, rules: &Rules<P>) -> Outcome
        ensures after { (t : Slots) → shows self.old t → shows self.new (cycle (rules_by P.Policy.goes rules.now) t) }
        ensures late { (t : Slots) → shows self.old t → result.late ≡ late_row (rules_by P.Policy.goes rules.now) t };

    // The rows that wait.
    fn waiting(&self) -> RowSet
        ensures { (t : Slots) → shows self.now t → (k : ℕ) → k < 32 → member result.word k ≡ waits_at t k };
}
