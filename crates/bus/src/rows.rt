// A set of rows, as a cycle's schedule names it.
ghost use Rattle.std.specs.Prelude.{◌≡◌};
ghost use Rattle.std.specs.Iterator.{YieldsFirst, item_count};
ghost use Rattle.bus.specs.Rows.{member, members, rows_of, word_of};

use std::array;

// The table's rows are 0 to 31.
pub const ROWS: usize = 32;

// Bit r of the word is set exactly where row r is in the set.
#[derive(Clone, Copy, PartialEq, Eq, Debug)]
pub struct RowSet {
    pub word: u32,
}

impl RowSet {
    // No set has a row above 31.
    pub fn contains(self, row: u8) -> bool
        ensures { result ≡ member self.word row }
    {
        row < 32 && self.word >> row & 1 == 1
    }

    // The set of the rows whose place is true. This and `to_rows` are methods and no `From`: each has two clauses, which
    // `From` would say in one, and `rows.into()` would not say that the places are a set's rows.
    pub fn from_rows(rows: &[bool; ROWS]) -> RowSet
        ensures value { result.word ≡ word_of rows.now }
        ensures kept { members 32 result.word ≡ rows.now }
    {
        let mut word = 0;
        for (r, in_set) in rows.iter().enumerate() {
            if *in_set {
                word |= 1 << r;
            }
        }
        RowSet { word }
    }

    // For each row whether it is in the set.
    pub fn to_rows(self) -> [bool; ROWS]
        ensures value { result ≡ members 32 self.word }
        ensures kept { word_of result ≡ self.word }
    {
        array::from_fn(|r| self.word >> r & 1 == 1)
    }
}

// The rows of a set, the lowest first.
impl IntoIterator for RowSet {
    type Item = u8;

    type IntoIter = Members;

    ghost into_iter_gives = { λ set members. members.rest ≡ set.word };

    fn into_iter(self) -> Members {
        Members { rest: self.word }
    }
}

// The rows of a set that are still to come, as the bits of a word.
#[derive(Clone, Copy, PartialEq, Eq, Debug)]
pub struct Members {
    rest: u32,
}

impl Iterator for Members {
    type Item = u8;

    ghost next_gives = { YieldsFirst (λ m. rows_of m.rest) };

    ghost remaining = { item_count (λ m. rows_of m.rest) };

    fn next(&mut self) -> Option<u8> {
        if self.rest == 0 {
            return None;
        }
        let row = self.rest.trailing_zeros() as u8;
        self.rest &= self.rest - 1;
        Some(row)
    }
}
