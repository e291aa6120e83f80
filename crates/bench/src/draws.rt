// Figures, policies, changes and lines that a seed decides. They only feed the library, and have no contract.
use crate::random::Random;
use arrayvec::ArrayVec;
use engine::row::Figures;
use ftt::change::Change;
use orders::layers::{Pinned, Urgent};
use orders::selector::Selector;
use std::io::Write;
use std::{io, iter};

pub trait Drawn {
    fn drawn(random: &mut Random) -> Self;
}

impl Drawn for Selector {
    fn drawn(random: &mut Random) -> Selector {
        random.one_of(&[
            Selector::RateMonotonic,
            Selector::DeadlineMonotonic,
            Selector::FixedPriority,
            Selector::EarliestDeadline,
        ])
    }
}

impl<P: Drawn> Drawn for Urgent<P> {
    fn drawn(random: &mut Random) -> Urgent<P> {
        let limit = random.byte(8);
        let below = P::drawn(random);
        Urgent { limit, below }
    }
}

impl<P: Drawn> Drawn for Pinned<P> {
    fn drawn(random: &mut Random) -> Pinned<P> {
        let row = random.byte(40);
        let below = P::drawn(random);
        Pinned { row, below }
    }
}

const PERIODS: [u8; 16] = [1, 2, 3, 4, 5, 6, 8, 10, 12, 15, 20, 24, 30, 0, 127, 200];

// A message that leaves no room for another in its cycle; about sixteen of them fill the bus.
fn tight_figures(random: &mut Random) -> Figures {
    let period = if random.below(8) == 0 { 32 } else { 16 };
    Figures {
        duration: 130,
        period,
        deadline: period,
        phase: random.byte(24),
        priority: random.byte(4),
    }
}

impl Drawn for Figures {
    fn drawn(random: &mut Random) -> Figures {
        if random.is_tight() && random.below(8) != 0 {
            return tight_figures(random);
        }
        let duration = random.byte(24);
        let period = random.one_of(&PERIODS);
        let deadline = if random.below(2) == 0 {
            period
        } else {
            random.byte(u32::from(period) + 2)
        };
        let phase = if random.below(8) == 0 {
            random.byte(256)
        } else {
            random.byte(12)
        };
        let priority = random.byte(4);
        Figures {
            duration,
            period,
            deadline,
            phase,
            priority,
        }
    }
}

impl<P: Drawn> Drawn for Change<P> {
    fn drawn(random: &mut Random) -> Change<P> {
        match random.below(5) {
            0 => Change::Add {
                row: random.byte(34),
                figures: Figures::drawn(random),
            },
            1 => Change::Alter {
                row: random.byte(34),
                figures: Figures::drawn(random),
            },
            2 => Change::Drop {
                row: random.byte(34),
            },
            3 => Change::Window {
                window: random.byte(if random.is_tight() { 256 } else { 80 }),
            },
            _ => Change::Policy {
                policy: P::drawn(random),
            },
        }
    }
}

// A line as it is sent, its bytes perhaps no text. What does not fit is let go; there is no heap to be counted.
pub type Line = ArrayVec<u8, 160>;

const NAMES: [&str; 4] = ["rm", "dm", "pr", "edf"];

fn put_message(line: &mut Line, word: &str, random: &mut Random) -> io::Result<()> {
    let row = random.below(34);
    let Figures {
        duration,
        period,
        deadline,
        phase,
        priority,
    } = Figures::drawn(random);
    write!(
        line,
        "({word} {row} {duration} {period} {deadline} {phase} {priority})"
    )
}

fn put_number(line: &mut Line, word: &str, number: u32) -> io::Result<()> {
    write!(line, "({word} {number})")
}

fn put_form(line: &mut Line, random: &mut Random) -> io::Result<()> {
    match random.below(8) {
        0 => put_number(line, "window", random.below(90)),
        1 => {
            let name = random.one_of(&NAMES);
            write!(line, "(policy {name})")
        }
        2 => put_number(line, "drop", random.below(34)),
        3 => put_number(line, "next", random.below(12)),
        4 => write!(line, "(which)"),
        5 => {
            let bits = random.below(3_000);
            let bytes = random.below(11);
            write!(line, "(frame {bits} {bytes})")
        }
        6 => put_message(line, "add", random),
        _ => put_message(line, "alter", random),
    }
}

// A line that says something, before anything is spoiled.
impl Drawn for Line {
    fn drawn(random: &mut Random) -> Line {
        let mut line = Line::new();
        let _ = put_form(&mut line, random);
        line
    }
}

const SIGNS: [u8; 16] = [
    b'(', b')', b' ', b'0', b'1', b'2', b'9', b'a', b'z', b'e', b'q', b'A', b'R', b'\r', 255, 0,
];

// The closing bracket makes room for a number behind this sign.
fn put_behind(line: &mut Line, random: &mut Random, between: &str) -> io::Result<()> {
    let _ = line.pop();
    let number = random.below(100);
    write!(line, "{between}{number})")
}

fn lengthen(line: &mut Line, random: &mut Random) {
    let _ = line.pop();
    let zeros = random.below(130) as usize;
    let _ = line.extend(iter::repeat_n(b'0', zeros));
    let _ = line.try_push(b')');
}

// Spoils some lines: another byte somewhere, an early end, more behind it, a larger number, too long a line.
pub fn spoil(line: &mut Line, random: &mut Random) {
    let length = line.len() as u32;
    match random.below(16) {
        0 => {
            let place = random.below(length) as usize;
            let sign = random.one_of(&SIGNS);
            if let Some(byte) = line.get_mut(place) {
                *byte = sign;
            }
        }
        1 => line.truncate(random.below(length + 1) as usize),
        2 => {
            let _ = line.try_push(random.one_of(&SIGNS));
        }
        3 => {
            let _ = put_behind(line, random, "");
        }
        4 => {
            let _ = put_behind(line, random, " ");
        }
        5 => lengthen(line, random),
        _ => {}
    }
}
