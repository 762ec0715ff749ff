// The prices and quantities that a service's pairs may have.
ghost use Rattle.std.specs.Prelude.{◌≡◌};
ghost use Rattle.units.specs.Typed.{pair_of};
ghost use Rattle.offers.specs.PairTests.{pair_is_out};
ghost use Rattle.offers.specs.Typed.{limits_of};

use layout::{Service, head, offer};
use units::{Pair, Price, Quantity};

#[derive(Clone, Copy, Debug, PartialEq, Eq)]
pub struct PriceLimits {
    pub lowest: Price,
    pub highest: Price,
}

impl PriceLimits {
    // "services 1–4 from 0"
    pub fn of_service(limits: &[i32; head::LIMIT_COUNT], service: Service) -> PriceLimits
        ensures { result ≡ limits_of limits.now service.number }
    {
        let lowest = if service.is_energy() {
            Price(limits[0])
        } else {
            Price(0)
        };
        PriceLimits {
            lowest,
            highest: Price(limits[1 + service.place()]),
        }
    }

    // 11 "quantity outside 0–99,999, price outside its limits"
    pub fn is_out_of_range(self, pair: Pair) -> bool
        ensures { result ≡ pair_is_out self.lowest self.highest (pair_of pair) }
    {
        !(Quantity(0)..=Quantity(offer::MOST_QUANTITY)).contains(&pair.quantity)
            | !(self.lowest..=self.highest).contains(&pair.price)
    }
}
