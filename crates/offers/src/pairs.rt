// The ten pairs of an offer, and their quantities added.
ghost use Rattle.std.specs.Prelude.{◌≡◌, ◌≤◌, ◌-◌, nat_abs, length, drop};
ghost use Rattle.offer_rules.specs.Offer.{pairs_in, pairs, sum_of};
ghost use Rattle.offers.specs.PairTests.{is_empty};
ghost use Rattle.units.specs.Typed.{pairs_of};

use crate::sum::Sum;
use layout::offer;
use units::{Pair, pair_words};

// ---- pairs, two words each

fn ten_pairs(words: &[i32; offer::PAIR_WORDS]) -> &[[i32; 2]; offer::PAIR_COUNT]
    ensures { (pairs_of result.now ≡ pairs_in words.now) × (length result.now ≡ 10) }
{
    pair_words(words).as_array().unwrap()
}

// The words of the pairs, which come last in an offer's words and in a cell's.
pub fn words_of_pairs<const N: usize>(words: &[i32; N]) -> &[i32; offer::PAIR_WORDS]
    requires { 20 ≤ N }
    ensures { result.now ≡ drop (N - 20) words.now }
{
    words.last_chunk().unwrap()
}

#[tactic(auto, unfolding(offer_rules::specs::Offer::pairs))]
pub fn pairs(offer: &[i32; offer::WORDS]) -> &[[i32; 2]; offer::PAIR_COUNT]
    ensures { (pairs_of result.now ≡ pairs offer.now) × (length result.now ≡ 10) × (length offer.now ≡ 23) }
{
    ten_pairs(words_of_pairs(offer))
}

// ---- ten quantities added

pub fn sum_of(pairs: &[i32; offer::PAIR_WORDS]) -> i64
    ensures { (result ≡ sum_of (pairs_in pairs.now)) × (nat_abs result ≤ 21474836480) }
{
    let mut total = Sum(0);
    // A loop: a fold was tried, and the check doesn't prove it. Its closure isn't told the bound of the total; the library's law that tells it is of naturals.
    for words in ten_pairs(pairs) {
        total = total + Pair::from(words).quantity;
    }
    total.0
}

// ---- empty pairs

// Neither a price nor a quantity. Not beside `is_blank`, as the word is of this crate's specs.
pub fn is_empty(pair: Pair) -> bool
    ensures { result ≡ is_empty pair.price pair.quantity }
{
    pair == Pair::EMPTY
}
