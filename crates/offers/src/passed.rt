// An offer that passes 11 to 16.
ghost use Rattle.std.specs.Prelude.{◌≡◌, false, drop};
ghost use Rattle.offer_rules.specs.Offer.{pairs, all_blank, blank_before_filled};

use crate::pairs::{pairs, words_of_pairs};
use layout::offer;
use units::Pair;

// With its reason; "all non-blank pairs come first".
#[derive(Clone, Copy, Debug, PartialEq, Eq)]
pub struct Passed<'a> {
    pub reason: u8,
    pub offer: &'a [i32; offer::WORDS],
    pub ghost blanks_last: { blank_before_filled (pairs offer.now) ≡ false },
}

impl<'a> Passed<'a> {
    // The words of its pairs.
    pub fn pairs(&self) -> &'a [i32; offer::PAIR_WORDS]
        ensures { result.now ≡ drop 3 self.now.offer.now }
    {
        words_of_pairs(self.offer)
    }

    // A filed offer "whose pairs are all blank": as "all non-blank pairs come first", its first pair tells.
    #[tactic(auto, using(crate::proofs::Pairing::told_by_first))]
    pub fn is_all_blank(&self) -> bool
        ensures { result ≡ all_blank (pairs self.now.offer.now) }
    {
        Pair::from(&pairs(self.offer)[0]).is_blank()
    }
}
