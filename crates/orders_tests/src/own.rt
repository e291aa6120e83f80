// Policies that are no part of the library.
ghost use Rattle.std.specs.Prelude.{ℕ, ◌-◌, nat_lt};
ghost use Rattle.orders_tests.specs.Own.{lower_row, lower_row_lawful};

use orders::instance::{Cycles, Instance};
use orders::keyed::Key;
use orders::policy::Policy;
use orders::selector::Selector;

// The longer duration first, by a key of its own.
#[derive(Clone, Copy)]
pub struct LongerFirst;

impl Key for LongerFirst {
    ghost key = { λ i. 255 - i.duration };

    ghost CODE = { 2 };

    const CODE: u8 = Selector::FixedPriority as u8;

    fn key(i: Instance) -> Cycles {
        Cycles::from(u8::MAX - i.duration)
    }
}

// The lower row first, whatever else the instances are.
#[derive(Clone, Copy)]
pub struct LowerRow;

impl Policy for LowerRow {
    ghost goes = { λ _. lower_row };

    ghost label = { λ _. 6 };

    ghost lawful = { λ _. lower_row_lawful };

    fn goes_before(&self, a: Instance, b: Instance) -> bool {
        a.row < b.row
    }

    fn label(&self) -> u8 {
        6
    }
}
