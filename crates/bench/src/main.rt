// Repeats one operation of the library, so that its instructions can be counted: `bench SCENARIO REPEATS SIZE`.
// It prints a checksum of all answers. `bench/run` counts, and compares with the plain implementation beside it.
#![tactic(auto)]

mod board;
mod calls;
mod draws;
mod random;
mod scenarios;
mod sum;
mod tables;

use arrayvec::ArrayVec;
use scenarios::Count;
use std::rt::Env;
use std::{io, str};

// Room for an argument, with no heap: this program is to be linked without one.
const MOST_IN_ARGUMENT: usize = 32;

type Argument = ArrayVec<u8, MOST_IN_ARGUMENT>;

// An argument's bytes; empty where it is missing or too long.
fn argument(rt: &HostRuntime, place: usize) -> Argument {
    let mut word = Argument::from([0; MOST_IN_ARGUMENT]);
    let length = rt.arg(place, &mut word).unwrap_or(0);
    word.truncate(length);
    word
}

// The number in an argument, cut at the largest. No `parse`: bytes that are no digits count as they always did, a byte
// below `0` as 0 and one above `9` as more than 9.
fn number(rt: &HostRuntime, place: usize) -> u32 {
    argument(rt, place).iter().fold(0u32, |value, digit| {
        let digit = u32::from(digit.saturating_sub(b'0'));
        value.saturating_mul(10).saturating_add(digit)
    })
}

fn main(rt: HostRuntime) -> io::Result<()> {
    let name = argument(&rt, 1);
    let mut count = Count::new(number(&rt, 2), number(&rt, 3));
    if let Err(error) = count.run(str::from_utf8(&name).unwrap_or_default()) {
        rt.println(error)?;
    }
    rt.println(count.sum())
}
