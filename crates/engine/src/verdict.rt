// What a rehearsal comes to. Three answers, and no `Result`: a rehearsal that finds a late row has not failed.

#[derive(Clone, Copy, PartialEq, Eq, Debug)]
pub enum Verdict {
    // no row is late in any coming cycle
    Settled,
    // the lowest late row of the first coming cycle that has one; the first coming cycle is 1
    Late { row: u8, cycle: u32 },
    // neither, in all the rounds that are rehearsed
    Unsettled,
}
