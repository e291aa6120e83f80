// Why the master declines a call. One enum for every layer, so that a refusal keeps its values on the way up.
ghost use Rattle.std.specs.Prelude.{◌≡◌};
ghost use Rattle.bus.specs.Refusals.{field_number, told};

// A figure of a change that can be out of range, with the number by which it is told.
#[derive(Clone, Copy, PartialEq, Eq, Debug)]
pub enum Field {
    Duration = 1,
    Period = 2,
    Deadline = 3,
    Window = 4,
}

impl Field {
    // The number by which the figure is told.
    pub fn number(self) -> u8
        ensures { result ≡ field_number self }
    {
        self as u8
    }
}

#[derive(Clone, Copy, PartialEq, Eq, Debug)]
pub enum Refusal {
    // the table has rows 0 to 31
    RowAbove31,
    // add to a row that is in use
    RowUsed,
    // alter, drop, reading or writing of a row that is not in use
    RowEmpty,
    // the first figure that is out of its range
    OutOfRange { field: Field },
    // the row's duration is above the window
    AboveWindow { row: u8 },
    // the periods' least common multiple is above the limit
    RoundTooLong,
    // the rehearsal found this row late in this coming cycle, the first being 1
    Late { row: u8, cycle: u32 },
    // the rehearsal came to its end and did not settle
    Unsettled,
    // a plan of no cycle, or of more than 256
    PlanLength,
    // four bytes from this offset do not lie inside the buffer
    OffsetTooHigh,
    // a frame has at most 8 data bytes
    TooManyDataBytes,
    // the frame lasts longer than the elementary cycle
    FrameTooLong,
    // the sign at this place cannot continue a form
    BadSign { place: usize },
    // the word or item at this place is in no form
    BadItem { place: usize },
    // the number at this place has a needless leading zero or is too large
    BadNumber { place: usize },
    // the text needs this many bytes
    BufferTooShort { needed: usize },
}

impl Refusal {
    // The number by which the refusal is known outside. A match: `as` takes no enum whose variants have fields.
    pub fn number(self) -> u8
        ensures { result ≡ (told self).number }
    {
        match self {
            Refusal::RowAbove31 => 1,
            Refusal::RowUsed => 2,
            Refusal::RowEmpty => 3,
            Refusal::OutOfRange { .. } => 4,
            Refusal::AboveWindow { .. } => 5,
            Refusal::RoundTooLong => 6,
            Refusal::Late { .. } => 7,
            Refusal::Unsettled => 8,
            Refusal::PlanLength => 9,
            Refusal::OffsetTooHigh => 10,
            Refusal::TooManyDataBytes => 11,
            Refusal::FrameTooLong => 12,
            Refusal::BadSign { .. } => 13,
            Refusal::BadItem { .. } => 14,
            Refusal::BadNumber { .. } => 15,
            Refusal::BufferTooShort { .. } => 16,
        }
    }
}
