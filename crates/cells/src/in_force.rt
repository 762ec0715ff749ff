// The offer in force, and what is told of it.
// `as` makes a clock signed, and loses nothing: it is a minute in time.
ghost use Rattle.std.specs.Prelude.{◌≡◌, ◌≤◌, ◌<◌, ◌+◌, ◌+ℤ◌, nat_abs, length, Some};
ghost use Rattle.offer_rules.specs.Numbers.{word};
ghost use Rattle.offer_rules.specs.Time.{is_fresh};
ghost use Rattle.offer_rules.specs.Offer.{pairs_in};
ghost use Rattle.book_rules.specs.Force.{pairs_of, counted, offered, found, found_words};
ghost use Rattle.cells.specs.Meaning.{cell_of, meaning, is_same_offer, answer_of};

use crate::answers::{Answer, plain};
use crate::held::Cell;
use layout::{Minute, answer, offer, time};
use units::copy_array;

// By its cell; specs/Meaning says what each case means.
#[derive(Clone, Copy, Debug, PartialEq, Eq)]
pub enum InForce<'a> {
    Standing(Cell<'a>),
    Variation(Cell<'a>),
}

// "while now minus that minute is below 5"; in 64 bits, as a damaged minute may be any word.
#[tactic(auto, unfolding(offer_rules::specs::Time::is_fresh))]
fn is_fresh(clock: Minute, minute: i32) -> bool
    ensures { result ≡ is_fresh clock.number minute }
{
    (clock.number as i64) - i64::from(minute) < time::SCHEDULE_CUTOFF_MINUTES
}

impl<'a> InForce<'a> {
    pub fn cell(&self) -> Cell<'a>
        ensures { result ≡ cell_of self.now }
    {
        match self {
            InForce::Standing(cell) | InForce::Variation(cell) => *cell,
        }
    }

    // The words of its pairs.
    #[tactic(auto, unfolding(offer_rules::specs::Offer::pairs, book_rules::specs::Force::pairs_of))]
    pub fn pairs(&self) -> &'a [i32; offer::PAIR_WORDS]
        ensures { pairs_in result.now ≡ pairs_of (meaning (Some self.now)) }
    {
        self.cell().pairs()
    }

    // "word 0 is 1 (standing) or 2 (variation)", and "3 for standing and 4 for variation" while it is fresh
    #[tactic(auto, unfolding(book_rules::specs::Force::found_words, book_rules::specs::Force::shown_at))]
    fn first_word(&self, clock: Minute) -> i32
        ensures { result ≡ word (found_words clock.number (meaning (Some self.now))) 0 }
    {
        let fresh = is_fresh(clock, self.cell().terms().minute);
        match self {
            InForce::Standing(_) if fresh => answer::FRESH_STANDING,
            InForce::Standing(_) => answer::STANDING,
            InForce::Variation(_) if fresh => answer::FRESH_VARIATION,
            InForce::Variation(_) => answer::VARIATION,
        }
    }

    // Word 0, then the offer's words.
    // Words 0 to 3 by themselves, so that the 80 bytes of the pairs stay whole for copies of 16: every answer is copied so.
    pub fn look_up(&self, clock: Minute) -> Answer
        ensures { answer_of result ≡ found clock.number (meaning (Some self.now)) }
    {
        let cell = self.cell();
        let terms = cell.terms();
        let mut words = [0; answer::WORDS];
        words[answer::FIRST] = self.first_word(clock);
        words[answer::PROPORTION] = terms.proportion;
        words[answer::RAMP_UP] = terms.up;
        words[answer::RAMP_DOWN] = terms.down;
        copy_array(&mut words[answer::PAIRS..], cell.pairs());
        Answer {
            number: 0,
            words,
            sum: cell.total(),
        }
    }
}

// ---- of the offer in force, where there is one

// What is told of it; zeros where nothing is in force.
#[tactic(auto, using(crate::proofs::Showing::nothing_shown))]
pub fn look_up(offer: Option<InForce<'_>>, clock: Minute) -> Answer
    ensures { answer_of result ≡ found clock.number (meaning offer.entry) }
{
    match offer {
        None => plain(0),
        Some(offer) => offer.look_up(clock),
    }
}

// The words of its pairs; none where nothing is in force.
#[tactic(auto, unfolding(offer_rules::specs::Offer::pairs_in, book_rules::specs::Force::pairs_of))]
pub fn pairs_of(offer: Option<InForce<'_>>) -> &[i32]
    ensures pairs { pairs_in result.now ≡ pairs_of (meaning offer.entry) }
    ensures most { length result.now ≤ 20 }
{
    match offer {
        None => &[],
        Some(offer) => offer.pairs(),
    }
}

// 18: equal to it; no offer is equal to nothing.
#[tactic(auto, unfolding(crate::specs::Meaning::is_same_offer))]
pub fn is_same_offer(held: Option<InForce<'_>>, offer: &[i32; offer::WORDS]) -> bool
    ensures { result ≡ is_same_offer (meaning held.entry) offer.now }
{
    match held {
        None => false,
        Some(held) => held.cell().is_same_offer(offer),
    }
}

// Offers in force: how many, and their quantities added.
#[derive(Clone, Copy, Debug, Default, PartialEq, Eq)]
pub(crate) struct Tally {
    pub count: u32,
    pub sum: i64,
}

impl Tally {
    // One facility more.
    #[tactic(auto, using(units::proofs::Adding::abs_add), unfolding(offer_rules::specs::Offer::sum_of, book_rules::specs::Force::counted, book_rules::specs::Force::pairs_of))]
    pub(crate) fn with(self, offer: Option<InForce<'_>>) -> Tally
        requires { (self.count < 64) × (nat_abs self.sum ≤ 1374389534720) }
        ensures count { result.count ≡ self.count + counted (meaning offer.entry) }
        ensures sum { result.sum ≡ self.sum +ℤ offered (meaning offer.entry) }
        ensures bounds { (result.count ≤ self.count + 1) × (nat_abs result.sum ≤ nat_abs self.sum + 21474836480) }
    {
        match offer {
            None => self,
            Some(offer) => Tally {
                count: self.count + 1,
                sum: self.sum + offer.cell().total(),
            },
        }
    }
}
