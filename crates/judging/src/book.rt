// A book that passes 1, and its head.
// Conversions stay `as`, proved to lose nothing: of u64 and usize there is no From, and a `try_from` would be tested as it runs.
ghost use Rattle.std.specs.Prelude.{◌≡◌, ◌+◌, ◌≤◌, ◌<◌, length, IfOk};
ghost use Rattle.offer_rules.specs.Numbers.{to_nat, word};
ghost use Rattle.offer_rules.specs.Time.{next_period};
ghost use Rattle.offer_rules.specs.Gate.{is_open};
ghost use Rattle.layout.specs.Refusal.{drawn};
ghost use Rattle.book_rules.specs.Words.{part, clock_place, limits_place};
ghost use Rattle.book_rules.specs.Refusals.{period_number};
ghost use Rattle.book_rules.specs.Book.{facilities_in, services_in, window_in};
ghost use Rattle.gate.specs.Meaning.{window_of};
ghost use Rattle.judging.specs.Usable.{Usable};

use cells::Cells;
use gate::{Window, is_before_closure};
use layout::{Minute, Period, Refusal, Sizes, Slot, head, refuse_if};
use offers::is_period_refused;
use periods::bilzhaan_next_period;
use units::nat;

#[derive(Clone, Copy, Debug, PartialEq, Eq)]
pub struct Book<'a> {
    pub words: &'a [i32],
    pub ghost usable: { Usable words.now },
}

impl<'a> Book<'a> {
    // F and S: a word of the head each, and so a function each.
    pub fn facilities(&self) -> usize
        ensures { result ≡ facilities_in self.now.words.now }
    {
        nat(self.words[head::FACILITIES]) as usize
    }

    pub fn services(&self) -> usize
        ensures { result ≡ services_in self.now.words.now }
    {
        nat(self.words[head::SERVICES]) as usize
    }

    pub fn sizes(&self) -> Sizes
        ensures { (result.facilities ≡ facilities_in self.now.words.now) × (result.services ≡ services_in self.now.words.now) }
    {
        Sizes {
            facilities: self.facilities(),
            services: self.services(),
        }
    }

    pub fn clock(&self) -> Minute
        ensures { result.number ≡ to_nat (word self.now.words.now clock_place) }
    {
        Minute {
            number: nat(self.words[head::CLOCK]),
        }
    }

    pub fn cells(&self) -> Cells<'a>
        ensures { (result.words.now ≡ self.now.words.now) × (result.sizes.facilities ≡ facilities_in self.now.words.now) × (result.sizes.services ≡ services_in self.now.words.now) }
    {
        Cells {
            words: self.words,
            sizes: self.sizes(),
        }
    }

    // Lowest and highest prices.
    #[tactic(auto, using(std::proofs::lemmas::List::take_rest), unfolding(book_rules::specs::Words::part))]
    pub(crate) fn limits(&self) -> &'a [i32; head::LIMIT_COUNT]
        ensures { result.now ≡ part limits_place 6 self.now.words.now }
    {
        self.words[head::LIMITS..head::LIMITS_END]
            .as_array()
            .unwrap()
    }

    // The window at a place, as the rule's `part at 2`.
    #[tactic(auto, using(units::proofs::Counts::word_back, crate::proofs::Lent::window_words))]
    pub(crate) fn window_at(&self, at: usize) -> Window
        requires { at + 2 ≤ length self.now.words.now }
        ensures { window_of result ≡ window_in (part at 2 self.now.words.now) }
    {
        Window {
            first: self.words[at],
            last: self.words[at + 1],
        }
    }

    // 10 for P. Where it isn't drawn, P lies within the horizon of a clock in time.
    #[tactic(auto, using(layout::proofs::Chains::draw_most, crate::proofs::Near::not_far), unfolding(book_rules::specs::Refusals::period_number))]
    pub fn check_period(&self, period: i32) -> Result<Period, Refusal>
        ensures number { drawn result ≡ period_number (to_nat (word self.now.words.now clock_place)) period }
        ensures bound { drawn result ≤ 10 }
        ensures near { drawn result ≡ 0 → to_nat period < 40000000 }
        ensures period { IfOk result (λ p. p.number ≡ to_nat period) }
    {
        let refused = is_period_refused(self.clock().number, period);
        refuse_if(refused, Refusal::Period)?;
        Ok(Period {
            number: nat(period),
        })
    }

    pub(crate) fn is_before_closure(&self, period: Period) -> bool
        ensures { result ≡ is_open (to_nat (word self.now.words.now clock_place)) period.number }
    {
        is_before_closure(self.clock(), period.number)
    }

    // "the slot's next period not yet begun"
    #[tactic(auto, using(crate::proofs::Near::own_slot, crate::proofs::Near::next_has_stamp))]
    pub(crate) fn next_period(&self, slot: Slot) -> Period
        ensures { result.number ≡ next_period (to_nat (word self.now.words.now clock_place)) slot.number }
    {
        let next = bilzhaan_next_period(self.clock().number as u32, slot.number as u32);
        Period {
            number: u64::from(next),
        }
    }
}
