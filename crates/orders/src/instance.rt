// A waiting instance of a message, as a policy sees it.

// A number of elementary cycles.
pub type Cycles = u8;

#[derive(Clone, Copy, PartialEq, Eq, Debug, Default)]
pub struct Instance {
    pub row: u8,
    pub duration: u8,
    pub period: Cycles,
    pub deadline: Cycles,
    pub priority: u8,
    // cycles to the deadline, the coming one included
    pub left: Cycles,
}
