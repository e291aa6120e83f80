// The changes of the table, the window and the policy. Each takes the idle watch, since no trigger may be owed
// meanwhile, and is made whole or not at all.
#![tactic(auto, unfolding(rules::specs::Calls::step))]

ghost use Rattle.rules.specs.Calls.Call.{add as to_add, alter as to_alter, drop as to_drop, set_window, set_policy};
ghost use Rattle.ftt.specs.Held.{stands};
ghost use Rattle.ftt.specs.Told.{Follows};

use crate::master::Master;
use crate::master::checks::new_row;
use crate::watch::IdleWatch;
use bus::refusal::Refusal;
use engine::row::Figures;
use orders::policy::Policy;

impl<P: Policy> Master<P> {
    // A message on a row that is free.
    pub fn add(&mut self, watch: &IdleWatch, row: u8, figures: Figures) -> Result<(), Refusal>
        ensures { Follows P.Policy.goes (stands self.old watch.now) (to_add row figures) result (stands self.new watch.now) }
    {
        self.judge_add(row, figures)?;
        self.rows[usize::from(row)] = Some(new_row(figures));
        Ok(())
    }

    // Another message in the place of the row's. An instance that waits is withdrawn.
    pub fn alter(&mut self, watch: &IdleWatch, row: u8, figures: Figures) -> Result<(), Refusal>
        ensures { Follows P.Policy.goes (stands self.old watch.now) (to_alter row figures) result (stands self.new watch.now) }
    {
        self.judge_alter(row, figures)?;
        let place = usize::from(row);
        self.rows[place] = Some(new_row(figures));
        Ok(())
    }

    // The row's message ends.
    pub fn drop_row(&mut self, watch: &IdleWatch, row: u8) -> Result<(), Refusal>
        ensures { Follows P.Policy.goes (stands self.old watch.now) (to_drop row) result (stands self.new watch.now) }
    {
        self.judge_drop(row)?;
        self.rows[usize::from(row)] = None;
        Ok(())
    }

    pub fn set_window(&mut self, watch: &IdleWatch, window: u8) -> Result<(), Refusal>
        ensures { Follows P.Policy.goes (stands self.old watch.now) (set_window window) result (stands self.new watch.now) }
    {
        self.judge_window(window)?;
        self.window = window;
        Ok(())
    }
}

impl<P: Policy + Drop> Master<P> {
    pub fn set_policy(&mut self, watch: &IdleWatch, policy: P) -> Result<(), Refusal>
        ensures { Follows P.Policy.goes (stands self.old watch.now) (set_policy policy) result (stands self.new watch.now) }
    {
        self.judge_policy(&policy)?;
        self.policy = policy;
        Ok(())
    }
}
