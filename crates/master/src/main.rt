// Reads bracket lines on standard input, and prints the answer to each.
#![tactic(auto)]

use session::input::LineBuffer;
use session::reply::Reply;
use session::session::Session;
use std::io::Read;
use std::{io, mem};

// A session, and the line that is being read for it, with its number. Lent, and not handed on: it is some 400 bytes.
#[derive(Drop)]
struct Desk {
    session: Session,
    line: LineBuffer,
    number: u32,
}

impl Desk {
    fn new() -> Desk {
        Desk {
            session: Session::new(),
            line: LineBuffer::new(),
            number: 1,
        }
    }

    // Runs so many cycles, and prints the trigger of each. A cycle takes its session whole: meanwhile a fresh one stands
    // in its place.
    fn run(&mut self, rt: &HostRuntime, cycles: u8) -> io::Result<()> {
        let mut session = mem::replace(&mut self.session, Session::new());
        for _ in 0..cycles {
            let (next, trigger) = session.cycle();
            session = next;
            rt.write_all(trigger.line().bytes())?;
        }
        self.session = session;
        Ok(())
    }

    // Answers the line, and begins the next.
    fn answer(&mut self, rt: &HostRuntime) -> io::Result<()> {
        match self.session.answer(self.line.bytes(), self.number) {
            Reply::Nothing => {}
            Reply::Line(answer) => rt.write_all(answer.line().bytes())?,
            Reply::Cycles(cycles) => self.run(rt, cycles)?,
        }
        self.line.clear();
        self.number = self.number.saturating_add(1);
        Ok(())
    }

    // Takes in a part of the input, and answers each line that ends in it.
    fn take(&mut self, rt: &HostRuntime, part: &[u8]) -> io::Result<()> {
        for byte in part {
            if *byte == b'\n' {
                self.answer(rt)?;
            } else {
                self.line.push(*byte);
            }
        }
        Ok(())
    }
}

fn main(rt: HostRuntime) -> io::Result<()> {
    let mut input = rt.stdin();
    let mut part = [0u8; 4096];
    let mut desk = Desk::new();
    for _ in 0..u64::MAX {
        let count = input.read(&mut part)?;
        if count == 0 {
            break;
        }
        desk.take(&rt, &part[..count])?;
    }
    desk.answer(&rt)
}
