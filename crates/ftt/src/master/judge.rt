// What a change would come to, with nothing changed: a change and its trial are judged alike.
#![tactic(auto, unfolding(rules::specs::Calls::checks, rules::specs::Calls::outcome))]

ghost use Rattle.std.specs.Prelude.{◌≡◌, ℕ, ◌<◌, Some, None, IfOk};
ghost use Rattle.rules.specs.Calls.{new_row, with_window, with_policy};
ghost use Rattle.rules.specs.Calls.Call.{add, alter, drop, set_window, set_policy};
ghost use Rattle.ftt.specs.Held.{standing};
ghost use Rattle.ftt.specs.Judged.{Judges, message_comes_to, told_outcome, with_slot};

use crate::master::Master;
use crate::master::checks::{
    check_duration, check_durations, check_figures, check_free, check_rehearsal, check_used,
    check_width, new_row, slot, with_row,
};
use bus::refusal::Refusal;
use engine::row::Figures;
use orders::policy::Policy;

impl<P: Policy> Master<P> {
    // A new message on a row, whatever it held. `row` and `figures` go apart here and below: they are the call's own
    // parameters, and the calls are public. Out of line, so that a trial of a drop sets up no room for rows.
    #[inline(never)]
    fn judge_message(&self, row: u8, figures: Figures) -> Result<(), Refusal>
        requires { row < 32 }
        ensures { (lost : ℕ) → told_outcome (λ _. with_slot row (Some (new_row figures)) (standing self.now lost)) result ≡ message_comes_to P.Policy.goes (standing self.now lost) row figures }
    {
        check_figures(figures)?;
        check_duration(self.window, row, figures)?;
        let rows = with_row(&self.rows, row, Some(new_row(figures)));
        check_rehearsal(&rows, self.window, &self.policy)
    }

    // A message on a free row.
    pub(crate) fn judge_add(&self, row: u8, figures: Figures) -> Result<(), Refusal>
        ensures judged { Judges P.Policy.goes self.now (add row figures) (λ _. with_slot row (Some (new_row figures))) result }
        ensures exists { IfOk result (λ _. row < 32) }
    {
        check_free(slot(&self.rows, row)?)?;
        self.judge_message(row, figures)
    }

    // Another message in the place of the row's. Beside `judge_add` for the check and the call that its clause names: a
    // function over both would take them as parameters and be no shorter.
    pub(crate) fn judge_alter(&self, row: u8, figures: Figures) -> Result<(), Refusal>
        ensures judged { Judges P.Policy.goes self.now (alter row figures) (λ _. with_slot row (Some (new_row figures))) result }
        ensures exists { IfOk result (λ _. row < 32) }
    {
        check_used(slot(&self.rows, row)?)?;
        self.judge_message(row, figures)
    }

    // A used row's message may end.
    pub(crate) fn judge_drop(&self, row: u8) -> Result<(), Refusal>
        ensures judged { Judges P.Policy.goes self.now (drop row) (λ _. with_slot row None) result }
        ensures exists { IfOk result (λ _. row < 32) }
    {
        check_used(slot(&self.rows, row)?)
    }

    // A narrower window has to pass the rows and the rehearsal.
    pub(crate) fn judge_window(&self, window: u8) -> Result<(), Refusal>
        ensures { Judges P.Policy.goes self.now (set_window window) (λ _ s. with_window P.Policy.goes 32 5040 s window) result }
    {
        check_width(window)?;
        if self.window <= window {
            return Ok(());
        }
        check_durations(&self.rows, window)?;
        check_rehearsal(&self.rows, window, &self.policy)
    }

    pub(crate) fn judge_policy(&self, policy: &P) -> Result<(), Refusal>
        ensures { Judges P.Policy.goes self.now (set_policy policy.now) (λ _ s. with_policy P.Policy.goes 32 5040 s policy.now) result }
    {
        check_rehearsal(&self.rows, self.window, policy)
    }
}
