// The crew at the cart: it makes changes, runs cycles, and keeps the book.
use crate::account::Book;
use bus::refusal::Refusal;
use engine::row::Figures;
use ftt::master::Master;
use ftt::watch::IdleWatch;
use orders::selector::Selector;
use std::io;

#[derive(Drop)]
pub struct Crew {
    master: Master<Selector>,
    watch: IdleWatch,
    pub book: Book,
}

// Prints what a change was answered.
fn tell(rt: &HostRuntime, what: &str, answer: Result<(), Refusal>) -> io::Result<()> {
    match answer {
        Ok(()) => println!(rt; "  {what}: made"),
        Err(refusal) => println!(rt; "  {what}: declined, {refusal:?}"),
    }
}

impl Crew {
    pub fn new() -> Crew {
        let (master, watch) = Master::new(Selector::RateMonotonic);
        Crew {
            master,
            watch,
            book: Book::new(),
        }
    }

    pub fn add(&mut self, rt: &HostRuntime, row: u8, figures: Figures) -> io::Result<()> {
        let answer = self.master.add(&self.watch, row, figures);
        if answer.is_ok() {
            self.book.begin(row, figures);
        }
        tell(rt, "add", answer)
    }

    pub fn alter(&mut self, rt: &HostRuntime, row: u8, figures: Figures) -> io::Result<()> {
        let answer = self.master.alter(&self.watch, row, figures);
        if answer.is_ok() {
            self.book.end(row);
            self.book.begin(row, figures);
        }
        tell(rt, "alter", answer)
    }

    pub fn remove(&mut self, rt: &HostRuntime, row: u8) -> io::Result<()> {
        let answer = self.master.drop_row(&self.watch, row);
        if answer.is_ok() {
            self.book.end(row);
        }
        tell(rt, "drop", answer)
    }

    pub fn window(&mut self, rt: &HostRuntime, window: u8) -> io::Result<()> {
        tell(rt, "window", self.master.set_window(&self.watch, window))
    }

    pub fn policy(&mut self, rt: &HostRuntime, policy: Selector) -> io::Result<()> {
        tell(rt, "policy", self.master.set_policy(&self.watch, policy))
    }

    // Runs cycles; the triggers of the first `lost` of them are reported lost, the others sent.
    // The loop is written out, since the misuses that the build has to refuse are edits of its lines.
    pub fn run(self, cycles: u32, lost: u32) -> Crew {
        let Crew {
            mut master,
            mut watch,
            mut book,
        } = self;
        for cycle in 0..cycles {
            let owed = master.next(watch);
            book.note(owed.schedule());
            watch = if cycle < lost {
                owed.lost()
            } else {
                owed.sent()
            };
        }
        Crew {
            master,
            watch,
            book,
        }
    }

    pub fn lost_in_a_row(&self) -> u8 {
        self.watch.lost_in_a_row()
    }
}
