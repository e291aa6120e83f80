// A policy picked by its code.
ghost use Rattle.std.specs.Prelude.{◌≡◌, ok_or};
ghost use Rattle.orders.specs.Coded.{coded, code_of, order_of};
ghost use Rattle.orders.specs.declared.selector.Selector.TheVariants.{RateMonotonic, DeadlineMonotonic, FixedPriority, EarliestDeadline};
ghost use Rattle.orders.specs.Lawful.{by_key_lawful};

use crate::instance::Instance;
use crate::keyed::{DeadlineMonotonic, EarliestDeadline, FixedPriority, RateMonotonic};
use crate::policy::Policy;

// Orders and labels as the policy that it names. The number of each is its code.
#[derive(Clone, Copy, PartialEq, Eq, Debug)]
pub enum Selector {
    RateMonotonic = 0,
    DeadlineMonotonic = 1,
    FixedPriority = 2,
    EarliestDeadline = 3,
}

// A code that selects nothing.
#[derive(Clone, Copy, PartialEq, Eq, Debug)]
pub struct UnknownCode(pub u8);

// Codes 0 to 3; any other code selects nothing.
impl TryFrom<u8> for Selector {
    type Error = UnknownCode;

    ghost try_from_gives = { λ code r. r ≡ ok_or (coded code) (record { 0 = code }) };

    fn try_from(code: u8) -> Result<Selector, UnknownCode> {
        match code {
            0 => Ok(Selector::RateMonotonic),
            1 => Ok(Selector::DeadlineMonotonic),
            2 => Ok(Selector::FixedPriority),
            3 => Ok(Selector::EarliestDeadline),
            _ => Err(UnknownCode(code)),
        }
    }
}

// A match and no function that is kept: a selector is a plain value, which is compared and copied.
impl Policy for Selector {
    ghost goes = { order_of };

    ghost label = { code_of };

    ghost lawful = { elim [
      | RateMonotonic ↦ by_key_lawful (λ i. i.period)
      | DeadlineMonotonic ↦ by_key_lawful (λ i. i.deadline)
      | FixedPriority ↦ by_key_lawful (λ i. i.priority)
      | EarliestDeadline ↦ by_key_lawful (λ i. i.left)
    ] };

    fn goes_before(&self, a: Instance, b: Instance) -> bool {
        match self {
            Selector::RateMonotonic => RateMonotonic.goes_before(a, b),
            Selector::DeadlineMonotonic => DeadlineMonotonic.goes_before(a, b),
            Selector::FixedPriority => FixedPriority.goes_before(a, b),
            Selector::EarliestDeadline => EarliestDeadline.goes_before(a, b),
        }
    }

    fn label(&self) -> u8 {
        *self as u8
    }
}
