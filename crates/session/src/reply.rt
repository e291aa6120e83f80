// What a line is replied.
use crate::answer::Answer;

#[derive(Clone, Copy)]
pub enum Reply {
    // to an empty line
    Nothing,
    Line(Answer),
    // so many cycles are to be run, and the trigger of each printed
    Cycles(u8),
}
