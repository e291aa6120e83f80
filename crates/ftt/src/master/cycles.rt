// The life of a master: its start and its cycles.
ghost use Rattle.std.specs.Prelude.{◌≡◌};
ghost use Rattle.rules.specs.Calls.{Report, answer, after, counted, fresh};
ghost use Rattle.rules.specs.Calls.Call.{next as next_call};
ghost use Rattle.rules.specs.Calls.Answer.{schedule as scheduled};
ghost use Rattle.ftt.specs.Held.{stands, standing};
ghost use Rattle.rules.specs.Promise.{Promise, RoundsKnown};

use crate::master::Master;
use crate::watch::{IdleWatch, OwedTrigger};
use bus::rows::ROWS;
use engine::cycle::run_cycle;
use orders::policy::Policy;

// A new master's window.
const WIDEST_WINDOW: u8 = 255;

impl<P: Policy> Master<P> {
    // A master with no message, and its idle watch. What it promises holds of every list of calls that can follow.
    #[tactic(auto, using(crate::proofs::Soundness::no_rows, rules::proofs::Relief::promise, rules::proofs::Rounds::rounds_known))]
    pub fn new(policy: P) -> (Master<P>, IdleWatch)
        ensures made { stands result.0 result.1 ≡ fresh policy }
        ensures promise { Promise P.Policy.goes 32 5040 }
        ensures rounds { RoundsKnown P.Policy.goes 32 5040 }
    {
        let master = Master {
            rows: [None; ROWS],
            window: WIDEST_WINDOW,
            policy,
        };
        (master, IdleWatch::new())
    }

    // Runs the next elementary cycle, whose trigger is then owed.
    #[tactic(auto, using(crate::proofs::Soundness::cycled_sound), unfolding(rules::specs::Calls::step))]
    pub fn next(&mut self, watch: IdleWatch) -> OwedTrigger
        ensures answer { (report : Report) → scheduled result.schedule.word ≡ answer P.Policy.goes 32 5040 (stands self.old watch) (next_call report) }
        ensures after { (report : Report) → standing self.new (counted report result.lost) ≡ after P.Policy.goes 32 5040 (stands self.old watch) (next_call report) }
        ensures kept { result.lost ≡ watch.lost }
    {
        let outcome = run_cycle(&mut self.rows, self.window, &self.policy);
        watch.owe(outcome.schedule)
    }
}
