// Which of two waiting instances goes first. A policy is an order over waiting instances and a label.
#![tactic(auto)]

pub mod instance;
pub mod keyed;
pub mod layers;
pub mod policy;
pub mod selector;
