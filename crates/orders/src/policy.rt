// A policy: an order over waiting instances, and a label to know it by.
ghost use Rattle.std.specs.Prelude.{◌≡◌, ℕ};
ghost use Rattle.orders.specs.Laws.{Laws, Order};

use crate::instance::Instance;

pub trait Policy {
    // `goes p a b`: under the policy p, a goes before b.
    ghost goes: { Self → Order };

    ghost label: { Self → ℕ };

    // Whether `a` goes before `b`.
    fn goes_before(&self, a: Instance, b: Instance) -> bool
        ensures { result ≡ goes self.now a b };

    // A number and no enum: policies of other crates have labels of their own.
    fn label(&self) -> u8
        ensures { result ≡ label self.now };

    // Whatever the policy's value, its order puts different rows in a line.
    ghost lawful: { (p : Self) → Laws (goes p) };
}
