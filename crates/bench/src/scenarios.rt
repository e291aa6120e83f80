// What can be counted, by name. A scenario makes its table once and then repeats one operation.
use crate::board::Board;
use crate::calls::{calls, lines};
use crate::sum::{Sum, Summed};
use crate::tables::{cart, crowd, full, last_in_crowd, mixed, one_more, reversed, two_periods};
use ftt::change::Change;
use ftt::watch::OwedTrigger;
use orders::keyed::{FixedPriority, RateMonotonic};
use orders::layers::{Pinned, Urgent};
use orders::policy::Policy;
use orders::selector::Selector;
use session::reply::Reply;
use session::session::Session;
use std::error::Error;
use std::fmt;
use text::text::Text;

#[derive(Debug, Drop)]
pub struct NoSuchScenario;

impl fmt::Display for NoSuchScenario {
    fn fmt<W: fmt::Write>(&self, f: &mut fmt::Formatter<W>) -> fmt::Result {
        write!(f, "no such scenario")
    }
}

impl Error for NoSuchScenario {}

// The lines that are read, by their size.
fn line_of(size: u32) -> &'static [u8] {
    match size {
        0 => b"(add 0 1 1 1 0 0)",
        1 => b"(frame 2500 8)",
        _ => b"(add 0 1 1 1 x 0)",
    }
}

// A scenario's arguments, and the checksum of what it is answered.
#[derive(Drop)]
pub struct Count {
    repeats: u32,
    size: u32,
    sum: Sum,
}

impl Count {
    pub fn new(repeats: u32, size: u32) -> Count {
        Count {
            repeats,
            size,
            sum: Sum::new(),
        }
    }

    pub fn sum(&self) -> u32 {
        self.sum.value()
    }

    // `next` on a table.
    fn cycles<P: Policy + Drop>(&mut self, board: Board<P>) {
        let _ = board.run_cycles(self.repeats, &mut self.sum, OwedTrigger::sent);
    }

    // `next` with so many rows waiting. The size is meant to be cut to a byte, as in the plain implementation.
    fn cycles_of_full<P: Policy + Drop, F: Fn(u8) -> u8>(&mut self, policy: P, priority: F)
        requires { F.IsAlwaysCallable priority }
    {
        self.cycles(full(policy, (self.size & 255) as u8, priority));
    }

    // Under 0 to 4 layers.
    fn cycles_under_layers(&mut self) {
        let none = RateMonotonic;
        let one = Urgent {
            limit: 1,
            below: none,
        };
        let two = Pinned {
            row: 31,
            below: one,
        };
        let three = Urgent {
            limit: 0,
            below: two,
        };
        let four = Pinned {
            row: 16,
            below: three,
        };
        match self.size {
            0 => self.cycles(full(none, 32, reversed)),
            1 => self.cycles(full(one, 32, reversed)),
            2 => self.cycles(full(two, 32, reversed)),
            3 => self.cycles(full(three, 32, reversed)),
            _ => self.cycles(full(four, 32, reversed)),
        }
    }

    // The table of 26 rows, after so many cycles.
    fn cart_later<P: Policy + Drop>(&mut self, policy: P) -> Board<P> {
        cart(policy).run_cycles(self.size, &mut self.sum, OwedTrigger::sent)
    }

    // Trials of a 27th row there.
    fn trials<P: Policy + Drop>(&mut self, policy: P) {
        let board = self.cart_later(policy);
        board.run_trials(
            self.repeats,
            &mut self.sum,
            |turn| Change::Add {
                row: 26,
                figures: one_more(turn),
            },
        );
    }

    // The same row added and dropped again.
    fn pairs<P: Policy + Drop>(&mut self, policy: P) {
        let mut board = self.cart_later(policy);
        board.run_pairs(self.repeats, 26, &mut self.sum, one_more);
    }

    fn longest_rehearsals(&mut self) {
        crowd().run_trials(
            self.repeats,
            &mut self.sum,
            |turn| Change::Add {
                row: 31,
                figures: last_in_crowd(turn),
            },
        );
    }

    // Rehearsals of a table as it stands.
    fn rounds(&mut self) {
        two_periods(self.size).run_trials(
            self.repeats,
            &mut self.sum,
            |_| Change::Policy {
                policy: RateMonotonic,
            },
        );
    }

    // One line, read and answered, with the line that is printed for it.
    fn lines_alike(&mut self) {
        let line = line_of(self.size);
        let mut session = Session::new();
        let _ = session.answer(line_of(0), 1);
        let mut last = Text::new();
        for turn in 0..self.repeats {
            if let Reply::Line(answer) = session.answer(line, turn & 1) {
                last = answer.line();
            }
            self.sum.add((last.bytes().len() & 0xff) as u32);
        }
        self.sum.add_bytes(last.bytes());
    }

    // A match and no table of steps: they differ in the type of their policy.
    pub fn run(&mut self, name: &str) -> Result<(), NoSuchScenario> {
        let rm = Selector::RateMonotonic;
        let pr = Selector::FixedPriority;
        match name {
            "full-rm" => self.cycles_of_full(RateMonotonic, reversed),
            "full-rm-selector" => self.cycles_of_full(rm, reversed),
            "full-pr" => self.cycles_of_full(FixedPriority, reversed),
            "full-pr-selector" => self.cycles_of_full(pr, reversed),
            "full-mixed" => self.cycles_of_full(FixedPriority, mixed),
            "layers" => self.cycles_under_layers(),
            "steady" => self.cycles(cart(RateMonotonic)),
            "steady-selector" => self.cycles(cart(rm)),
            "trial" => self.trials(RateMonotonic),
            "trial-selector" => self.trials(rm),
            "pair" => self.pairs(RateMonotonic),
            "pair-selector" => self.pairs(rm),
            "longest" => self.longest_rehearsals(),
            "round" => self.rounds(),
            "line" => self.lines_alike(),
            "calls" => self.sum = calls::<Selector>(self.repeats, self.size),
            "layered-calls" => self.sum = calls::<Urgent<Pinned<Selector>>>(
                self.repeats,
                self.size,
            ),
            "lines" => self.sum = lines(self.repeats, self.size),
            _ => return Err(NoSuchScenario),
        }
        Ok(())
    }
}
