// The table of periodic messages: what one elementary cycle does to it, and the rehearsal of a change.
#![tactic(auto)]

mod columns;
pub mod cycle;
pub mod known;
mod line;
pub mod rehearsal;
pub mod round;
pub mod row;
pub mod row_by_row;
mod rules;
mod running;
pub mod verdict;
