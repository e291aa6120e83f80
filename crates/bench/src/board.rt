// A master with its watch, and the operations on it that are counted. All of this only drives the library, so it has
// no contract beyond what its closures need: it is proved to be safe and to return.
use crate::sum::{Sum, Summed};
use bus::refusal::Refusal;
use engine::row::Figures;
use ftt::change::Change;
use ftt::master::Master;
use ftt::watch::{IdleWatch, OwedTrigger};
use orders::policy::Policy;

#[derive(Drop)]
pub struct Board<P> {
    pub master: Master<P>,
    pub watch: IdleWatch,
}

// The number of the answer, 0 for a change that is made. Apart from `Summed`: the scenarios that use this sum the
// refusal's number alone, without its values, and their checksums stay.
fn number_of(answer: Result<(), Refusal>) -> u32 {
    answer
        .err()
        .map_or(0, |refusal| u32::from(refusal.number()))
}

impl<P: Policy + Drop> Board<P> {
    pub fn new(policy: P) -> Board<P> {
        let (master, watch) = Master::new(policy);
        Board { master, watch }
    }

    // A match: the master has a call of its own for each change.
    pub fn make(&mut self, change: Change<P>) -> Result<(), Refusal> {
        match change {
            Change::Add { row, figures } => self.master.add(&self.watch, row, figures),
            Change::Alter { row, figures } => self.master.alter(&self.watch, row, figures),
            Change::Drop { row } => self.master.drop_row(&self.watch, row),
            Change::Window { window } => self.master.set_window(&self.watch, window),
            Change::Policy { policy } => self.master.set_policy(&self.watch, policy),
        }
    }

    pub fn run_cycles<F: FnMut(OwedTrigger) -> IdleWatch>(
        self,
        cycles: u32,
        sum: &mut Sum,
        mut report: F,
    ) -> Board<P>
        requires { F.IsAlwaysCallable report }
    {
        let Board {
            mut master,
            mut watch,
        } = self;
        for _ in 0..cycles {
            let owed = master.next(watch);
            owed.schedule().add_to(sum);
            watch = report(owed);
        }
        Board { master, watch }
    }

    // Trials of a change for each turn.
    pub fn run_trials<F: Fn(u32) -> Change<P>>(&self, turns: u32, sum: &mut Sum, change: F)
        requires { F.IsAlwaysCallable change }
    {
        for turn in 0..turns {
            sum.add(number_of(self.master.trial(&change(turn))));
        }
    }

    // For each turn a row is added and dropped again.
    pub fn run_pairs<F: Fn(u32) -> Figures>(&mut self, turns: u32, row: u8, sum: &mut Sum, new: F)
        requires { F.IsAlwaysCallable new }
    {
        for turn in 0..turns {
            sum.add(number_of(self.master.add(&self.watch, row, new(turn))));
            sum.add(number_of(self.master.drop_row(&self.watch, row)));
        }
    }
}
