// Questions to a master, which leave it as it is.
ghost use Rattle.std.specs.Prelude.{◌≡◌, ℕ, ◌<◌, ◌||◌, [], length, Decides, MatchResult, ◌==◌, nat_lt};
ghost use Rattle.bus.specs.Refusals.{answered, numbered};
ghost use Rattle.engine.specs.Held.{slots};
ghost use Rattle.rules.specs.Calls.{answer, refused_if};
ghost use Rattle.ftt.specs.Held.{standing};
ghost use Rattle.ftt.specs.Questions.{Alike, Planned, figures_of, call_of, asked};
ghost use Rattle.ftt.specs.Told.{refusal_of, told_answer};

use crate::change::Change;
use crate::master::Master;
use crate::master::checks::slot;
use bus::refusal::Refusal;
use bus::rows::ROWS;
use engine::cycle::run_cycle;
use engine::row::{Figures, Row};
use orders::policy::Policy;

// The longest plan.
const MOST_PLANNED: usize = 256;

impl<P: Policy> Master<P> {
    // What a change would be answered.
    #[tactic(auto, unfolding(rules::specs::Calls::step))]
    pub fn trial(&self, change: &Change<P>) -> Result<(), Refusal>
        ensures { (n : ℕ) → told_answer result ≡ answer P.Policy.goes 32 5040 (standing self.now n) (call_of change.now) }
    {
        match change {
            Change::Add { row, figures } => self.judge_add(*row, *figures),
            Change::Alter { row, figures } => self.judge_alter(*row, *figures),
            Change::Drop { row } => self.judge_drop(*row),
            Change::Window { window } => self.judge_window(*window),
            Change::Policy { policy } => self.judge_policy(policy),
        }
    }

    // Fills in the schedules of the next cycles, as words, if no change comes between.
    pub fn plan(&self, words: &mut [u32]) -> Result<(), Refusal>
        ensures refusal { refusal_of result ≡ refused_if (length words.old == 0 || nat_lt 256 (length words.old)) (numbered 9 []) }
        ensures words { MatchResult result (λ _. Planned P.Policy.goes self.now words.new) (λ _. words.new ≡ words.old) }
    {
        if words.is_empty() || words.len() > MOST_PLANNED {
            return Err(Refusal::PlanLength);
        }
        let mut rows = self.rows;
        for word in words.iter_mut() {
            *word = run_cycle(&mut rows, self.window, &self.policy)
                .schedule
                .word;
        }
        Ok(())
    }
}

impl<P> Master<P> {
    // The policy in place.
    pub fn policy(&self) -> &P
        ensures { result.now ≡ self.now.policy }
    {
        &self.policy
    }

    // The figures of a used row.
    pub fn row(&self, row: u8) -> Result<Figures, Refusal>
        ensures { answered result ≡ asked 32 (slots self.now.rows) row }
    {
        slot(&self.rows, row)?
            .map(|used| used.figures)
            .ok_or(Refusal::RowEmpty)
    }

    // Whether two masters have the same window and the same messages, wherever their cycles are.
    pub fn alike(&self, other: &Master<P>) -> bool
        ensures { Decides result (Alike self.now other.now) }
    {
        self.window == other.window && same_messages(&self.rows, &other.rows)
    }
}

fn same_messages(a: &[Option<Row>; ROWS], b: &[Option<Row>; ROWS]) -> bool
    ensures { Decides result ((k : ℕ) → k < 32 → figures_of (slots a.now k) ≡ figures_of (slots b.now k)) }
{
    a.iter()
        .zip(b)
        .all(|(one, other)| figures_of(*one) == figures_of(*other))
}

fn figures_of(slot: Option<Row>) -> Option<Figures>
    ensures { result ≡ figures_of slot }
{
    slot.map(|row| row.figures)
}
