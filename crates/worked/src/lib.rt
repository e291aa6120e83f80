// Worked tables: small schedules, rehearsals, triggers and frames with their answers, as one proved fact.
#![tactic(auto)]

pub mod tables;
