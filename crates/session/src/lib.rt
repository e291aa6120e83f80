// What the program answers to the lines of its input, and what it prints for each answer.
#![tactic(auto)]

pub mod answer;
pub mod input;
pub mod reply;
pub mod session;
