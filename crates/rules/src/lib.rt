// The master's rules, its ledger, and the proof that after every list of calls the ledger shows what it must. The
// rules are specs/, the proof is proofs/; the code that meets them stands in the crate above.
#![tactic(auto)]

pub mod ledger;
