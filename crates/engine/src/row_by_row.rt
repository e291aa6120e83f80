// The cycle and the rehearsal row by row, as the rules tell them: slower, with the same answers.
pub mod cycle;
pub mod rehearsal;
