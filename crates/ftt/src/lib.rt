// The master: its table of messages with its changes, its watch and its questions.
#![tactic(auto)]

pub mod change;
pub mod master;
pub mod watch;

pub use rules::ledger;
