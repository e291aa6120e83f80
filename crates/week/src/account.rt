// The account of every message, kept from calls and answers alone.
ghost use Rattle.std.specs.Prelude.{◌≡◌, ◌-◌, ◌≤◌};
ghost use Rattle.rules.specs.Ledger.{releases};

use arrayvec::ArrayVec;
use bus::rows::RowSet;
use engine::row::Figures;
use std::fmt;

#[derive(Clone, Copy, Default)]
pub struct Account {
    row: u8,
    figures: Figures,
    start: u32,
    ended: Option<u32>,
    scheduled: u32,
}

// What an account comes to after some cycles.
#[derive(Drop)]
pub struct Balance {
    row: u8,
    released: u32,
    scheduled: u32,
    waiting: u32,
    withdrawn: u32,
}

impl Account {
    // The instances that were released up to a count of cycles.
    fn released_by(&self, count: u32) -> u32
        ensures { 1 ≤ self.now.figures.period → result ≡ releases self.now.figures (count - self.now.start) }
    {
        let lived = count.saturating_sub(self.start);
        let phase = u32::from(self.figures.phase);
        let period = u32::from(self.figures.period).max(1);
        if lived <= phase {
            0
        } else {
            1u32.saturating_add((lived - phase - 1) / period)
        }
    }

    fn is_running(&self) -> bool {
        self.ended.is_none()
    }

    // What was released and not scheduled, one instance at most, waits until the message ends, and is withdrawn then.
    pub fn balance(&self, count: u32) -> Balance {
        let released = self.released_by(self.ended.unwrap_or(count));
        let open = released.saturating_sub(self.scheduled);
        let (waiting, withdrawn) = if self.is_running() {
            (open, 0)
        } else {
            (0, open)
        };
        Balance {
            row: self.row,
            released,
            scheduled: self.scheduled,
            waiting,
            withdrawn,
        }
    }
}

impl fmt::Display for Balance {
    fn fmt<W: fmt::Write>(&self, f: &mut fmt::Formatter<W>) -> fmt::Result {
        let Balance {
            row,
            released,
            scheduled,
            waiting,
            withdrawn,
        } = self;
        write!(
            f,
            "row {row}: {released} released, {scheduled} scheduled, {waiting} waiting, {withdrawn} withdrawn"
        )
    }
}

const MOST_MESSAGES: usize = 16;

#[derive(Drop)]
pub struct Book {
    // the cycles that were noted
    pub count: u32,
    accounts: ArrayVec<Account, MOST_MESSAGES>,
}

impl Book {
    pub fn new() -> Book {
        Book {
            count: 0,
            accounts: ArrayVec::new(),
        }
    }

    // A message beyond the last that the book has room for is not noted.
    pub fn begin(&mut self, row: u8, figures: Figures) {
        let _ = self.accounts.try_push(Account {
            row,
            figures,
            start: self.count,
            ended: None,
            scheduled: 0,
        });
    }

    fn running(&mut self, row: u8) -> Option<&mut Account> {
        self.accounts
            .iter_mut()
            .find(|account| account.row == row && account.is_running())
    }

    pub fn end(&mut self, row: u8) {
        let count = self.count;
        if let Some(account) = self.running(row) {
            account.ended = Some(count);
        }
    }

    // One cycle with its schedule.
    pub fn note(&mut self, schedule: RowSet) {
        self.count = self.count.saturating_add(1);
        for account in &mut self.accounts {
            if account.is_running() && schedule.contains(account.row) {
                account.scheduled = account.scheduled.saturating_add(1);
            }
        }
    }

    pub fn accounts(&self) -> &[Account] {
        self.accounts.as_slice()
    }
}
