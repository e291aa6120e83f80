// Tests and counts over whole columns.
ghost use Rattle.std.specs.Prelude.{◌≡◌, ℕ, ◌<◌, cond, ◌==◌, nat_eq, nat_lt, slice_index, slice_index_or};
ghost use Rattle.bus.specs.Rows.{member};
ghost use Rattle.engine.specs.Cycle.{Slots, lowest, release};
ghost use Rattle.engine.specs.Columns.{no_instance};
ghost use Rattle.engine.specs.Held.{seen, shows, Nearer};

use crate::columns::Columns;
use bus::rows::{ROWS, RowSet};
use orders::instance::{Cycles, Instance};
use std::array;
use std::simd::prelude::*;

// The rows that have so many cycles.
fn rows_with(cycles: &[Cycles; ROWS], value: Cycles) -> u32
    ensures { (k : ℕ) → k < 32 → member result k ≡ (slice_index cycles.now k == value) }
{
    u8x32::from_array(*cycles)
        .simd_eq(u8x32::splat(value))
        .to_bitmask() as u32
}

// Both numbers are read before the choice, so that a core can do many rows at once: with the reads in the branches a
// rehearsal took half as much again.
fn one_of(is_due: bool, due: Cycles, other: Cycles) -> Cycles
    ensures { result ≡ cond is_due due other }
{
    if is_due { due } else { other }
}

// One column where a row's wait is over, the other elsewhere.
fn when_due(waits: &[Cycles; ROWS], due: &[Cycles; ROWS], others: &[Cycles; ROWS]) -> [Cycles; ROWS]
    ensures { (k : ℕ) → k < 32 → slice_index result k ≡ cond (slice_index waits.now k == 0) (slice_index due.now k) (slice_index others.now k) }
{
    array::from_fn(|r| one_of(waits[r] == 0, due[r], others[r]))
}

// Each number one nearer to 0.
fn nearer(cycles: &[Cycles; ROWS]) -> [Cycles; ROWS]
    ensures { Nearer cycles.now result }
{
    array::from_fn(|r| cycles[r].saturating_sub(1))
}

impl Columns {
    // The rows that wait: those that have cycles left.
    pub(crate) fn waiting(&self) -> RowSet
        ensures { (k : ℕ) → k < 32 → member result.word k ≡ nat_lt 0 (slice_index self.now.lefts k) }
    {
        let word = u8x32::from_array(self.lefts)
            .simd_ne(u8x32::splat(0))
            .to_bitmask() as u32;
        RowSet { word }
    }

    // What a policy sees of a waiting row. The `requires` and no type of its own for a row: this is its one reader.
    pub(crate) fn instance(&self, row: u8) -> Instance
        requires { row < 32 }
        ensures { result ≡ seen row (slice_index self.now.lefts row) (slice_index_or self.now.kinds row no_instance) }
    {
        Instance {
            row,
            left: self.lefts[usize::from(row)],
            ..self.kinds[usize::from(row)]
        }
    }

    // Every row whose wait is over releases an instance. Most cycles of a long round have no such row.
    pub(crate) fn release(&mut self)
        ensures { (t : Slots) → shows self.old t → shows self.new (release t) }
    {
        if rows_with(&self.waits, 0) == 0 {
            return;
        }
        self.lefts = when_due(&self.waits, &self.deadlines, &self.lefts);
        self.waits = when_due(&self.waits, &self.periods, &self.waits);
    }

    // The lowest row whose deadline is the cycle's end.
    pub(crate) fn first_late(&self) -> Option<u8>
        ensures { result ≡ lowest 32 (λ k. nat_eq (slice_index self.now.lefts k) 1) }
    {
        let late = rows_with(&self.lefts, 1);
        (late != 0).then_some(late.trailing_zeros() as u8)
    }

    // Every release and every deadline comes one cycle nearer.
    pub(crate) fn count_down(&mut self)
        ensures kinds { self.new.kinds ≡ self.old.kinds }
        ensures waits { Nearer self.old.waits self.new.waits }
        ensures lefts { Nearer self.old.lefts self.new.lefts }
    {
        self.waits = nearer(&self.waits);
        self.lefts = nearer(&self.lefts);
    }
}
