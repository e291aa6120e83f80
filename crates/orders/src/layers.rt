// Policies over a policy: a group of instances goes before all the others, and within it and outside it the policy
// below decides. Layers pile up in any number.
ghost use Rattle.std.specs.Prelude.{◌≡◌, Bool};
ghost use Rattle.orders.specs.Groups.{group_first, is_urgent, is_pinned, urgent_first, pinned_first};
ghost use Rattle.orders.specs.Lawful.{group_first_lawful};
ghost use Rattle.orders.specs.declared.instance.Instance.{Instance};

use crate::instance::{Cycles, Instance};
use crate::policy::Policy;

// The instances that go before all the others.
trait Group {
    ghost contains: { Self → Instance → Bool };

    fn contains(&self, i: Instance) -> bool
        ensures { result ≡ contains self.now i };
}

// The group first, then the policy below; of one row neither.
fn group_first<G: Group, P: Policy>(group: &G, below: &P, a: Instance, b: Instance) -> bool
    ensures { result ≡ group_first (G.contains group.now) (P.goes below.now) a b }
{
    if group.contains(a) == group.contains(b) {
        below.goes_before(a, b)
    } else {
        group.contains(a) && a.row != b.row
    }
}

// Instances with at most `limit` cycles left go first.
#[derive(Clone, Copy)]
pub struct Urgent<P> {
    pub limit: Cycles,
    pub below: P,
}

impl<P> Group for Urgent<P> {
    ghost contains = { λ u. is_urgent u.limit };

    fn contains(&self, i: Instance) -> bool {
        i.left <= self.limit
    }
}

// An impl for each layer: one for every `Group` would overlap with the one for every `Key`.
impl<P: Policy> Policy for Urgent<P> {
    ghost goes = { λ u. urgent_first u.limit (P.goes u.below) };

    ghost label = { λ _. 4 };

    ghost lawful = { λ u. group_first_lawful (is_urgent u.limit) _ (P.lawful u.below) };

    fn goes_before(&self, a: Instance, b: Instance) -> bool {
        group_first(self, &self.below, a, b) // the urgent first
    }

    fn label(&self) -> u8 {
        4
    }
}

// The instance of row `row` goes first; a row above the last pins none.
#[derive(Clone, Copy)]
pub struct Pinned<P> {
    pub row: u8,
    pub below: P,
}

const LAST_ROW: u8 = 31;

impl<P> Group for Pinned<P> {
    ghost contains = { λ p. is_pinned p.row };

    fn contains(&self, i: Instance) -> bool {
        i.row == self.row && self.row <= LAST_ROW
    }
}

impl<P: Policy> Policy for Pinned<P> {
    ghost goes = { λ p. pinned_first p.row (P.goes p.below) };

    ghost label = { λ _. 5 };

    ghost lawful = { λ p. group_first_lawful (is_pinned p.row) _ (P.lawful p.below) };

    fn goes_before(&self, a: Instance, b: Instance) -> bool {
        group_first(self, &self.below, a, b)
    }

    fn label(&self) -> u8 {
        5
    }
}
