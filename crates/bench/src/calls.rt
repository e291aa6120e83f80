// Lists of calls and of lines that are drawn from a seed, to compare two masters by the checksum of all answers.
use crate::board::Board;
use crate::draws::{Drawn, Line, spoil};
use crate::random::Random;
use crate::sum::{Sum, Summed};
use bus::frame::frame_units;
use bus::rows::RowSet;
use bus::trigger::{read_trigger, write_trigger};
use engine::row::Figures;
use ftt::change::Change;
use ftt::master::Master;
use orders::policy::Policy;
use session::reply::Reply;
use session::session::Session;

const MOST_WORDS: usize = 260;

// Makes calls of every kind on a master of its own.
#[derive(Drop)]
struct Caller<P> {
    board: Board<P>,
    random: Random,
    sum: Sum,
}

impl<P: Policy + Drawn + Drop> Caller<P> {
    fn new(seed: u32) -> Caller<P> {
        let mut random = Random::new(seed);
        Caller {
            board: Board::new(P::drawn(&mut random)),
            random,
            sum: Sum::new(),
        }
    }

    fn make(&mut self, change: Change<P>) {
        self.board.make(change).add_to(&mut self.sum);
    }

    // Cycles whose triggers are sent or lost.
    fn run_some(self) -> Caller<P> {
        let Caller {
            board,
            mut random,
            mut sum,
        } = self;
        let cycles = random.below(24);
        let board = board.run_cycles(cycles, &mut sum, |owed| {
            if random.below(3) == 0 {
                owed.lost()
            } else {
                owed.sent()
            }
        });
        board.watch.lost_in_a_row().add_to(&mut sum);
        Caller { board, random, sum }
    }

    fn plan(&mut self) {
        let mut words = [7u32; MOST_WORDS];
        let most = if self.random.below(4) == 0 { 261 } else { 20 };
        let length = MOST_WORDS.min(self.random.below(most) as usize);
        let planned = self.board.master.plan(&mut words[..length]);
        planned.add_to(&mut self.sum);
        for word in words {
            self.sum.add(word);
        }
    }

    fn ask(&mut self) {
        let figures = self.board.master.row(self.random.byte(34));
        figures.add_to(&mut self.sum);
        self.board.master.policy().label().add_to(&mut self.sum);
        let (fresh, _watch) = Master::new(P::drawn(&mut self.random));
        self.sum.add(u32::from(self.board.master.alike(&fresh)));
    }

    fn use_bus(&mut self) {
        let cycle_bits = self.random.below(3_000) as u16;
        let units = frame_units(cycle_bits, self.random.below(11) as usize);
        units.add_to(&mut self.sum);
        let mut buffer = [3u8; 12];
        let high = self.random.below(65_536);
        let word = high.wrapping_mul(65_536) | self.random.below(65_536);
        let offset = self.random.below(12) as usize;
        let written = write_trigger(RowSet { word }, &mut buffer, offset);
        written.add_to(&mut self.sum);
        self.sum.add_bytes(&buffer);
        let read = read_trigger(&buffer, self.random.below(12) as usize);
        read.add_to(&mut self.sum);
    }

    fn call(mut self) -> Caller<P> {
        match self.random.below(16) {
            0..=3 => {
                let row = self.random.byte(34);
                let figures = Figures::drawn(&mut self.random);
                self.make(Change::Add { row, figures });
            }
            4 => {
                let row = self.random.byte(34);
                self.make(Change::Drop { row });
            }
            5..=8 => {
                let change = Change::drawn(&mut self.random);
                self.make(change);
            }
            9 => {
                let change = Change::drawn(&mut self.random);
                let answer = self.board.master.trial(&change);
                answer.add_to(&mut self.sum);
            }
            10 => self.plan(),
            11 => self.ask(),
            12 => self.use_bus(),
            _ => self = self.run_some(),
        }
        self
    }
}

// The checksum of so many calls on a fresh master.
pub fn calls<P: Policy + Drawn + Drop>(count: u32, seed: u32) -> Sum {
    let mut caller = Caller::<P>::new(seed);
    for _ in 0..count {
        caller = caller.call();
    }
    caller.sum
}

fn one_line(mut session: Session, line: &[u8], number: u32, sum: &mut Sum) -> Session {
    match session.answer(line, number) {
        Reply::Nothing => {}
        Reply::Line(answer) => answer.add_to(sum),
        Reply::Cycles(cycles) => {
            for _ in 0..cycles {
                let (next, sent) = session.cycle();
                session = next;
                sent.add_to(sum);
            }
        }
    }
    session
}

// The checksum of so many lines of a fresh session.
pub fn lines(count: u32, seed: u32) -> Sum {
    let mut random = Random::new(seed);
    let mut session = Session::new();
    let mut sum = Sum::new();
    for number in 0..count {
        let mut line = Line::drawn(&mut random);
        spoil(&mut line, &mut random);
        session = one_line(session, line.as_slice(), number, &mut sum);
    }
    sum
}
