// A text of at most ROOM bytes.
ghost use Rattle.std.specs.Prelude.{◌≤◌, ℕ, List, length};

mod growing;

use arrayvec::ArrayVec;
use std::marker::Model;

#[derive(Drop)]
pub struct Text<const ROOM: usize> {
    bytes: ArrayVec<u8, ROOM>,
}

// Clauses see the bytes that it holds.
impl<const ROOM: usize> Model for Text<ROOM> {
    ghost Value = { List ℕ };

    ghost view = { λ text. text.bytes.items };

    ghost invariant = { λ text. length text.bytes.items ≤ ROOM };
}

// A line that is printed or written.
pub type Line = Text<128>;
