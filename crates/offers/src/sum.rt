// Quantities added.
ghost use Rattle.std.specs.Prelude.{◌≡◌, ◌≤◌, nat_abs, ◌+ℤ◌};

use std::ops::Add;
use units::Quantity;

// Tenths of a MW, added.
#[derive(Clone, Copy, Debug, Default, PartialEq, Eq, PartialOrd, Ord)]
pub struct Sum(pub i64);

impl From<Quantity> for Sum {
    ghost from_gives = { λ quantity sum. sum.0 ≡ quantity.0 };

    fn from(quantity: Quantity) -> Sum {
        Sum(i64::from(quantity.0))
    }
}

impl Add<Quantity> for Sum {
    type Output = Sum;

    ghost can_add = { λ sum quantity. nat_abs sum.0 ≤ 4611686018427387904 };

    ghost add_gives = { λ sum quantity result. result.0 ≡ sum.0 +ℤ quantity.0 };

    fn add(self, quantity: Quantity) -> Sum {
        Sum(self.0 + i64::from(quantity.0))
    }
}
