// What goes over the bus, and what the master answers when it declines.
#![tactic(auto)]

pub mod frame;
pub mod refusal;
pub mod rows;
pub mod trigger;
