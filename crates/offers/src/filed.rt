// An offer as it is filed for a service, under its price limits: of its pairs refusals 11 to 13, and their total.
ghost use Rattle.std.specs.Prelude.{◌≡◌, true, false, cond, not, ◌&&◌, ◌≤◌, eqb, length, drop, IfOk};
ghost use Rattle.layout.specs.Refusal.{number, drawn};
ghost use Rattle.offer_rules.specs.Offer.{pairs, sum_of, any_pair, blank_before_filled};
ghost use Rattle.offers.specs.PairTests.{no_pair, all_empty, pair_is_out, found_in, pairs_number, used_pairs, UsesFive};
ghost use Rattle.units.specs.Typed.{pairs_of};

use crate::limits::PriceLimits;
use crate::pairs::{is_empty, pairs};
use crate::sum::Sum;
use crate::walk::{Findings, walk};
use layout::{Refusal, Service, offer};
use units::Pair;

#[derive(Clone, Copy, Debug, PartialEq, Eq)]
pub struct Filed<'a> {
    pub service: Service,
    pub limits: PriceLimits,
    pub offer: &'a [i32; offer::WORDS],

    // refusal 4 has left empty what the service doesn't use
    ghost five_used: { UsesFive service.number offer.now },
}

impl<'a> Filed<'a> {
    // ---- its pairs

    // Those that its service doesn't use are empty.
    #[tactic(auto, using(crate::proofs::Walks::unused_empty))]
    fn pairs(&self) -> &'a [[i32; 2]; offer::PAIR_COUNT]
        ensures each { (pairs_of result.now ≡ pairs self.now.offer.now) × (length result.now ≡ 10) }
        ensures unused { all_empty (drop (used_pairs self.now.service.number) (pairs self.now.offer.now)) ≡ true }
    {
        pairs(self.offer)
    }

    // How many pairs its service uses.
    fn used_pairs(&self) -> usize
        ensures { (result ≡ used_pairs self.now.service.number) × (result ≤ 10) }
    {
        if self.service.is_energy() {
            offer::PAIR_COUNT
        } else {
            offer::FEWER_PAIRS
        }
    }

    // ---- 11 to 13: the pairs before the first blank

    // Whether the walk may end after five pairs. Services 1 to 4 use no more, and the others are empty; they are tested where 11 would refuse an empty one.
    fn five_suffice(&self) -> bool
        ensures { result ≡ (not (eqb self.now.service.number 0) && not (pair_is_out self.now.limits.lowest self.now.limits.highest no_pair)) }
    {
        !self.service.is_energy() && !self.limits.is_out_of_range(Pair::EMPTY)
    }

    // Five pairs, and the other five where the walk has not ended before them and they may change something. Whether they may is asked after the first five:
    // asked before them, the answer would have to be kept while they are walked.
    fn findings(&self) -> Result<Findings, Refusal>
        ensures found { result ≡ found_in self.now.limits.lowest self.now.limits.highest (pairs self.now.offer.now) }
        ensures within { IfOk result (λ f. f.filled ≤ used_pairs self.now.service.number) }
    {
        let pairs = self.pairs();
        let five = walk(
            self.limits,
            Findings::NONE_YET,
            &pairs[..offer::FEWER_PAIRS],
        )?;
        if five.filled < offer::FEWER_PAIRS || self.five_suffice() {
            return Ok(five);
        }
        walk(self.limits, five, &pairs[offer::FEWER_PAIRS..])
    }

    // ---- 11 to 13: all pairs

    // Whether the pairs from one on are empty. Most offers fill all that their service uses: that none is left is asked first.
    fn are_empty_from(&self, from: usize) -> bool
        requires { from ≤ used_pairs self.now.service.number }
        ensures { result ≡ all_empty (drop from (pairs self.now.offer.now)) }
    {
        let pairs = self.pairs();
        let used = self.used_pairs();
        used <= from
            || pairs[from..used]
                .iter()
                .all(|words| is_empty(Pair::from(words)))
    }

    fn is_any_out_from(&self, from: usize) -> bool
        requires { from ≤ 10 }
        ensures { result ≡ any_pair (pair_is_out self.now.limits.lowest self.now.limits.highest) (drop from (pairs self.now.offer.now)) }
    {
        let limits = self.limits;
        self.pairs()[from..]
            .iter()
            .any(|words| limits.is_out_of_range(Pair::from(words)))
    }

    // 11 or 12 of the pairs from the first blank on, where they are not all empty: 11 comes first.
    fn blanks_refusal(&self, from: usize) -> Refusal
        requires { from ≤ 10 }
        ensures { number result ≡ cond (any_pair (pair_is_out self.now.limits.lowest self.now.limits.highest) (drop from (pairs self.now.offer.now))) 11 12 }
    {
        if self.is_any_out_from(from) {
            Refusal::OutOfRange
        } else {
            Refusal::Blank
        }
    }

    // The total of its pairs; where none is refused, "all non-blank pairs come first". The price order and the total stop at the first blank; they are
    // asked for once all pairs from it on are known to be blank.
    #[tactic(auto, using(crate::proofs::Walks::draws_11, crate::proofs::Walks::draws_11_or_12, crate::proofs::Walks::draws_13, crate::proofs::Walks::draws_none, crate::proofs::Walks::come_first, crate::proofs::Walks::total_found))]
    pub fn judge_pairs(&self) -> Result<Sum, Refusal>
        ensures number { drawn result ≡ pairs_number self.now.limits.lowest self.now.limits.highest (pairs self.now.offer.now) }
        ensures passed { IfOk result (λ total. (total.0 ≡ sum_of (pairs self.now.offer.now)) × (blank_before_filled (pairs self.now.offer.now) ≡ false)) }
    {
        let f = self.findings()?;
        if !self.are_empty_from(f.filled) {
            return Err(self.blanks_refusal(f.filled));
        }
        if f.rises {
            Ok(f.total)
        } else {
            Err(Refusal::PricesDontRise)
        }
    }
}
