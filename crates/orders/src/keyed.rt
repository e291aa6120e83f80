// The four orders by one number of the instances, its key: the smaller goes first, and of equal ones the lower row.
ghost use Rattle.std.specs.Prelude.{◌≡◌, ℕ};
ghost use Rattle.orders.specs.ByKey.{by_key};
ghost use Rattle.orders.specs.Lawful.{by_key_lawful};
ghost use Rattle.orders.specs.declared.instance.Instance.{Instance};

use crate::instance::{Cycles, Instance};
use crate::policy::Policy;
use crate::selector::Selector;

// The number of an instance that an order goes by, as wide as cycles are, and the order's code. Whatever has a key is a
// policy.
pub trait Key {
    ghost key: { Instance → ℕ };

    ghost CODE: { ℕ };

    const CODE: u8;

    fn key(i: Instance) -> Cycles
        ensures { result ≡ key i };
}

impl<K: Key> Policy for K {
    ghost goes = { λ _. by_key K.key };

    ghost label = { λ _. K.CODE };

    ghost lawful = { λ _. by_key_lawful K.key };

    fn goes_before(&self, a: Instance, b: Instance) -> bool {
        a.row != b.row && (K::key(a), a.row) < (K::key(b), b.row)
    }

    fn label(&self) -> u8 {
        K::CODE
    }
}

// The shorter period first.
#[derive(Clone, Copy)]
pub struct RateMonotonic;

impl Key for RateMonotonic {
    ghost key = { λ i. i.period };

    ghost CODE = { 0 };

    const CODE: u8 = Selector::RateMonotonic as u8;

    fn key(i: Instance) -> Cycles {
        i.period
    }
}

// The shorter deadline first.
#[derive(Clone, Copy)]
pub struct DeadlineMonotonic;

impl Key for DeadlineMonotonic {
    ghost key = { λ i. i.deadline };

    ghost CODE = { 1 };

    const CODE: u8 = Selector::DeadlineMonotonic as u8;

    fn key(i: Instance) -> Cycles {
        i.deadline
    }
}

// The smaller priority number first.
#[derive(Clone, Copy)]
pub struct FixedPriority;

impl Key for FixedPriority {
    ghost key = { λ i. i.priority };

    ghost CODE = { 2 };

    const CODE: u8 = Selector::FixedPriority as u8;

    fn key(i: Instance) -> Cycles {
        Cycles::from(i.priority)
    }
}

// The nearer deadline first.
#[derive(Clone, Copy)]
pub struct EarliestDeadline;

impl Key for EarliestDeadline {
    ghost key = { λ i. i.left };

    ghost CODE = { 3 };

    const CODE: u8 = Selector::EarliestDeadline as u8;

    fn key(i: Instance) -> Cycles {
        i.left
    }
}
