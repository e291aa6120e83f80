// A short text that grows at its end, without a heap.
#![tactic(auto)]

pub mod text;
