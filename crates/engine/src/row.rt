// A used row of the table: a message's figures, and its two counters.
ghost use Rattle.std.specs.Prelude.{◌≡◌};
ghost use Rattle.engine.specs.Rows.{instance_of, released, waits, closed, misses};

use orders::instance::{Cycles, Instance};

// What the crew enters for a message.
#[derive(Clone, Copy, PartialEq, Eq, Debug, Default)]
pub struct Figures {
    // units of the cycle, 1 to 255
    pub duration: u8,
    // cycles from one release to the next, 1 to 255
    pub period: Cycles,
    // cycles from a release to its deadline, 1 up to the period
    pub deadline: Cycles,
    // cycles until the first release
    pub phase: Cycles,
    // 0 is foremost
    pub priority: u8,
}

#[derive(Clone, Copy, PartialEq, Eq, Debug)]
pub struct Row {
    pub figures: Figures,
    // cycles until the next release
    pub wait: Cycles,
    // cycles to the deadline of the waiting instance, the coming one included; 0 where none waits
    pub left: Cycles,
}

impl Row {
    // The waiting instance, as a policy sees it.
    pub fn instance(self, row: u8) -> Instance
        ensures { result ≡ instance_of row self }
    {
        Instance {
            row,
            duration: self.figures.duration,
            period: self.figures.period,
            deadline: self.figures.deadline,
            priority: self.figures.priority,
            left: self.left,
        }
    }

    // A row whose wait is over releases an instance.
    pub fn release(self) -> Row
        ensures { result ≡ released self }
    {
        if self.wait == 0 {
            Row {
                wait: self.figures.period,
                left: self.figures.deadline,
                ..self
            }
        } else {
            self
        }
    }

    pub fn waits(self) -> bool
        ensures { result ≡ waits self }
    {
        self.left > 0
    }

    // The row at the end of a cycle in which it was scheduled or not.
    pub fn close(self, scheduled: bool) -> Row
        ensures { result ≡ closed scheduled self }
    {
        let left = if scheduled {
            0
        } else {
            self.left.saturating_sub(1)
        };
        Row {
            wait: self.wait.saturating_sub(1),
            left,
            ..self
        }
    }

    // Whether the cycle's end finds the instance unscheduled and its deadline reached.
    pub fn misses(self, scheduled: bool) -> bool
        ensures { result ≡ misses scheduled self }
    {
        !scheduled && self.left == 1
    }
}
