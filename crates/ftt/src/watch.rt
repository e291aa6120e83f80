// The watch over the triggers. A trigger that was handed out is owed a report, sent or lost, before anything else can
// be asked of the master: the types see to it.
ghost use Rattle.std.specs.Prelude.{◌≡◌};
ghost use Rattle.rules.specs.Calls.{counted};
ghost use Rattle.rules.specs.Calls.Report.{sent as is_sent, lost as is_lost};

use bus::rows::RowSet;

// No trigger is owed.
#[derive(Drop)]
pub struct IdleWatch {
    // triggers lost in a row, up to 255, where it stays
    lost: u8,
}

// The trigger of the coming elementary cycle, which is to be sent. It cannot be let go, only reported.
pub struct OwedTrigger {
    schedule: RowSet,
    lost: u8,
}

impl IdleWatch {
    // The watch of a new master.
    pub(crate) fn new() -> IdleWatch
        ensures { result.lost ≡ 0 }
    {
        IdleWatch { lost: 0 }
    }

    pub fn lost_in_a_row(&self) -> u8
        ensures { result ≡ self.now.lost }
    {
        self.lost
    }

    // Owes the trigger of a cycle.
    pub(crate) fn owe(self, schedule: RowSet) -> OwedTrigger
        ensures schedule { result.schedule ≡ schedule }
        ensures lost { result.lost ≡ self.lost }
    {
        let IdleWatch { lost } = self;
        OwedTrigger { schedule, lost }
    }
}

impl OwedTrigger {
    // The rows of the cycle.
    pub fn schedule(&self) -> RowSet
        ensures { result ≡ self.now.schedule }
    {
        self.schedule
    }

    pub fn sent(self) -> IdleWatch
        ensures { result.lost ≡ counted is_sent self.lost }
    {
        // Each field by name: a pattern with `..` would not spend the token.
        let OwedTrigger {
            schedule: _,
            lost: _,
        } = self;
        IdleWatch::new()
    }

    pub fn lost(self) -> IdleWatch
        ensures { result.lost ≡ counted is_lost self.lost }
    {
        let OwedTrigger { schedule: _, lost } = self;
        IdleWatch {
            lost: lost.saturating_add(1),
        }
    }
}
