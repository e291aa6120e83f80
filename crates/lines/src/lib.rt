// Reads the bracket lines by which the master is told what to do, and writes a row as such a line.
#![tactic(auto)]

pub mod fault;
pub mod form;
mod name;
mod number;
mod part;
pub mod reader;
mod shape;
mod sign;
mod word;
pub mod writer;
