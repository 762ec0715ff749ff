// An offer against its facility's capability: refusals 14 to 16.
ghost use Rattle.std.specs.Prelude.{◌≡◌, ◌||◌, pos};
ghost use Rattle.std.specs.Int.Signed.{lt_z};
ghost use Rattle.offer_rules.specs.Numbers.{eq_z};
ghost use Rattle.offer_rules.specs.Offer.{ramp_beyond, ramp_refused, proportion_refused, above_capacity};

use crate::filed::Filed;
use crate::sum::Sum;
use kinds::is_proportion_tested;
use layout::{facility, offer};
use units::Quantity;

// Tenths of a MW per minute.
#[derive(Clone, Copy, Debug, PartialEq, Eq, PartialOrd, Ord)]
struct Ramp(i32);

impl Ramp {
    const MOST: Ramp = Ramp(offer::MOST_RAMP);

    // "outside 0 to its maximum", or "above 9,999", whatever its maximum
    #[tactic(auto, unfolding(offer_rules::specs::Offer::ramp_beyond))]
    fn is_beyond(self, maximum: Ramp) -> bool
        ensures { result ≡ ramp_beyond maximum.0 self.0 }
    {
        !(Ramp(0)..=maximum).contains(&self) | (Ramp::MOST < self)
    }
}

// Thousandths.
#[derive(Clone, Copy, Debug, PartialEq, Eq, PartialOrd, Ord)]
struct Proportion(i32);

impl Proportion {
    fn is_none_or_above(self, maximum: Proportion) -> bool
        ensures { result ≡ (eq_z self.0 (pos 0) || lt_z maximum.0 self.0) }
    {
        (self == Proportion(0)) | (maximum < self)
    }
}

impl<'a> Filed<'a> {
    // 14 "energy ramp outside 0 to its maximum"; "also covers a ramp above 9,999"
    #[tactic(auto, unfolding(offer_rules::specs::Offer::ramp_refused))]
    pub fn is_ramp_refused(&self, capability: &[i32; facility::CAPABILITY]) -> bool
        ensures { result ≡ ramp_refused capability.now self.now.service.number self.now.offer.now }
    {
        if !self.service.is_energy() {
            return false;
        }
        let up = Ramp(self.offer[offer::RAMP_UP]);
        let down = Ramp(self.offer[offer::RAMP_DOWN]);
        up.is_beyond(Ramp(capability[facility::MAX_RAMP_UP]))
            | down.is_beyond(Ramp(capability[facility::MAX_RAMP_DOWN]))
    }

    // 15 "generation reserve: proportion 0 or above its maximum; load isn't tested"
    #[tactic(auto, unfolding(offer_rules::specs::Offer::proportion_refused))]
    pub fn is_proportion_refused(&self, capability: &[i32; facility::CAPABILITY]) -> bool
        ensures { result ≡ proportion_refused capability.now self.now.service.number self.now.offer.now }
    {
        let maximum = Proportion(
            capability[facility::MAX_PROPORTION_OF_SERVICE + self.service.place()],
        );
        let proportion = Proportion(self.offer[offer::PROPORTION]);
        (is_proportion_tested(capability[facility::KIND]) & self.service.is_reserve())
            & proportion.is_none_or_above(maximum)
    }

    // 16 "total above generation or combined maximum (energy), or above the service's own"
    #[tactic(auto, unfolding(offer_rules::specs::Offer::above_capacity))]
    pub fn is_above_capacity(&self, capability: &[i32; facility::CAPABILITY], total: Sum) -> bool
        ensures { result ≡ above_capacity capability.now self.now.service.number total.0 }
    {
        let is_above = |at: usize| Sum::from(Quantity(capability[at])) < total;
        if self.service.is_energy() {
            is_above(facility::MAX_GENERATION) | is_above(facility::MAX_COMBINED)
        } else {
            is_above(facility::MAX_OF_SERVICE + self.service.place())
        }
    }
}
