// A cell: its words are decoded here, and stores' write_cell encodes them; nothing else knows their order, but that the pairs come last.
// `as` makes a stamp signed and loses nothing, which is proved; a `try_from` would be tested as it runs.
ghost use Rattle.std.specs.Prelude.{◌≡◌, ◌≤◌, pos, nat_abs, drop};
ghost use Rattle.offer_rules.specs.Numbers.{eq_z};
ghost use Rattle.offer_rules.specs.Offer.{proportion, ramp_up, ramp_down, pairs, sum_of};
ghost use Rattle.book_rules.specs.Words.{cell_stamp};
ghost use Rattle.book_rules.specs.Refusals.{equal_words};
ghost use Rattle.cells.specs.Meaning.{held_by};

use layout::{Stamp, cell, offer};
use offers::{sum_of, words_of_pairs};

// Whether each word is the same, asked of all without a branch. `==` was measured: it branches, and a standing offer filed over
// a held one, in a random cell, takes a twenty-fifth longer.
fn are_same(held: &[i32; offer::PAIR_WORDS], offer: &[i32; offer::PAIR_WORDS]) -> bool
    ensures { result ≡ equal_words held.now offer.now }
{
    held.iter()
        .zip(offer)
        .fold(true, |same, (x, y)| same & (*x == *y))
}

// A cell's words, where they stand in the book.
#[derive(Clone, Copy, Debug, PartialEq, Eq)]
pub struct Cell<'a> {
    pub words: &'a [i32; cell::WORDS],
}

// What a held offer has before its pairs, and the minute of its acceptance.
#[derive(Clone, Copy, Debug, PartialEq, Eq)]
pub(crate) struct Terms {
    pub proportion: i32,
    pub up: i32,
    pub down: i32,
    pub minute: i32,
}

impl<'a> Cell<'a> {
    // "0 stamp (0 empty, 1 standing, P + 1 variation)"
    pub(crate) fn is_stamped(&self, stamp: Stamp) -> bool
        ensures { result ≡ eq_z (cell_stamp self.now.words.now) (pos stamp.number) }
    {
        self.words[cell::STAMP] == stamp.number as i32
    }

    // "On a damaged word 2 the ramps are quotient and remainder rounded toward zero."
    #[tactic(auto, unfolding(book_rules::specs::Words::cell_held))]
    pub(crate) fn terms(&self) -> Terms
        ensures { (result.proportion ≡ proportion (held_by self.now).offer) × (result.up ≡ ramp_up (held_by self.now).offer) × (result.down ≡ ramp_down (held_by self.now).offer) × (result.minute ≡ (held_by self.now).minute) }
    {
        let ramps = self.words[cell::RAMPS];
        Terms {
            proportion: self.words[cell::PROPORTION],
            up: ramps / cell::RAMP_UNIT,
            down: ramps % cell::RAMP_UNIT,
            minute: self.words[cell::MINUTE],
        }
    }

    // The words of its pairs.
    #[tactic(auto, unfolding(book_rules::specs::Words::cell_held))]
    pub fn pairs(&self) -> &'a [i32; offer::PAIR_WORDS]
        ensures { result.now ≡ drop 3 (held_by self.now).offer }
    {
        words_of_pairs(self.words)
    }

    // "its ten quantities added"
    #[tactic(auto, unfolding(offer_rules::specs::Offer::pairs))]
    pub(crate) fn total(&self) -> i64
        ensures { (result ≡ sum_of (pairs (held_by self.now).offer)) × (nat_abs result ≤ 21474836480) }
    {
        sum_of(self.pairs())
    }

    // 18: equal to the held one. The minute is not compared.
    #[tactic(auto, using(units::proofs::Signs::eqb_bits), unfolding(book_rules::specs::Words::cell_held, book_rules::specs::Refusals::equal_words))]
    pub fn is_same_offer(&self, offer: &[i32; offer::WORDS]) -> bool
        ensures { result ≡ equal_words (held_by self.now).offer offer.now }
    {
        let terms = self.terms();
        let proportion = terms.proportion == offer[offer::PROPORTION];
        let up = terms.up == offer[offer::RAMP_UP];
        let down = terms.down == offer[offer::RAMP_DOWN];
        let pairs = are_same(self.pairs(), words_of_pairs(offer));
        proportion & (up & (down & pairs))
    }
}
