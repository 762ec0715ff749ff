// Offers as the gate is lent them: old, and the one that will stand.
ghost use Rattle.std.specs.Prelude.{◌≡◌, false, ◌≤◌, length};
ghost use Rattle.offer_rules.specs.Offer.{pairs_in, blank_before_filled};

use layout::offer;

// "A held offer, which may be older": lent as the words of its pairs, price, quantity, price, quantity .., with blanks anywhere.
#[derive(Clone, Copy, Debug, PartialEq, Eq)]
pub struct Held<'a> {
    // A slice: shorter ones may be asked, as the rule's are.
    pub words: &'a [i32],
    pub ghost at_most_ten: { length words.now ≤ 20 },
}

// A filed offer: the words of all its ten pairs, of which "all non-blank pairs come first".
#[derive(Clone, Copy, Debug, PartialEq, Eq)]
pub struct Filed<'a> {
    pub words: &'a [i32; offer::PAIR_WORDS],
    pub ghost blanks_last: { blank_before_filled (pairs_in words.now) ≡ false },
}

// An offer that will stand.
#[derive(Clone, Copy, Debug, PartialEq, Eq)]
pub enum Offer<'a> {
    Filed(Filed<'a>),
    Held(Held<'a>),
}
