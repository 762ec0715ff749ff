// The cells of a book: what is looked up and added.
// `as` makes a count signed, and loses nothing: facilities are at most 64.
ghost use Rattle.std.specs.Prelude.{◌≡◌, ◌+◌, ◌≤◌, ◌<◌, length};
ghost use Rattle.offer_rules.specs.Time.{slot_of};
ghost use Rattle.book_rules.specs.Words.{part, cell_width, cell_place, standing_half};
ghost use Rattle.book_rules.specs.Force.{in_force};
ghost use Rattle.book_rules.specs.Refusals.{total_reply};
ghost use Rattle.book_rules.specs.Book.{cell_in, held, book_view};
ghost use Rattle.cells.specs.Meaning.{Sized, half_number, held_in, meaning, answer_of};

use crate::answers::Answer;
use crate::held::Cell;
use crate::in_force::{InForce, Tally};
use crate::places::{CellPlace, Half, Place};
use layout::{Period, Sizes, Slot, Stamp, answer, cell};

// The cells of a facility for one service, in a book's words.
#[derive(Clone, Copy, Debug, PartialEq, Eq)]
pub struct PlaceCells<'a> {
    pub words: &'a [i32],
    pub place: Place,
    pub ghost sized: { Sized words.now place.sizes.facilities place.sizes.services },
}

impl<'a> PlaceCells<'a> {
    // The cell that begins at a place, where it has this stamp.
    #[tactic(auto, using(std::proofs::lemmas::List::take_rest), unfolding(book_rules::specs::Words::part, book_rules::specs::Book::held))]
    fn held_at(&self, at: usize, stamp: Stamp) -> Option<Cell<'a>>
        requires { at + 24 ≤ length self.now.words.now }
        ensures { held_in result ≡ held stamp.number (part at cell_width self.now.words.now) }
    {
        let cell = Cell {
            words: self.words[at..at + cell::WORDS].as_array().unwrap(),
        };
        cell.is_stamped(stamp).then_some(cell)
    }

    fn held(&self, half: Half, slot: Slot, stamp: Stamp) -> Option<Cell<'a>>
        ensures { held_in result ≡ held stamp.number (cell_in self.now.words.now self.now.place.f self.now.place.s (half_number half) slot.number) }
    {
        let place = self.place;
        self.held_at(CellPlace { place, half, slot }.start(), stamp)
    }

    // "else the standing cell if its stamp is 1, else none"
    #[tactic(auto, unfolding(book_rules::specs::Book::book_view))]
    pub fn held_standing(&self, slot: Slot) -> Option<Cell<'a>>
        ensures { held_in result ≡ (book_view self.now.words.now).standing self.now.place.f self.now.place.s slot.number }
    {
        self.held(Half::Standing, slot, Stamp::STANDING)
    }

    // "the variation cell if its stamp is P + 1", else the standing one. Where that begins is handed over, as a total comes to it from the facility before.
    #[tactic(auto, using(book_rules::proofs::Places::cell_inside, crate::proofs::Halves::variation_place), unfolding(book_rules::specs::Book::book_view, book_rules::specs::Force::first_of, book_rules::specs::Force::in_force))]
    fn in_force_from(&self, at: usize, period: Period) -> Option<InForce<'a>>
        requires { at ≡ cell_place self.now.place.sizes.facilities self.now.place.sizes.services self.now.place.f self.now.place.s standing_half (slot_of period.number) }
        ensures { meaning result ≡ in_force (book_view self.now.words.now) self.now.place.f self.now.place.s period.number }
    {
        let half = Half::Variation;
        let stamp = period.stamp();
        match self.held_at(at + cell::WORDS * cell::SLOTS * usize::from(half), stamp) {
            Some(cell) => Some(InForce::Variation(cell)),
            None => self.held_at(at, Stamp::STANDING).map(InForce::Standing),
        }
    }

    pub fn in_force(&self, period: Period) -> Option<InForce<'a>>
        ensures { meaning result ≡ in_force (book_view self.now.words.now) self.now.place.f self.now.place.s period.number }
    {
        let place = self.place;
        let half = Half::Standing;
        let slot = period.slot();
        self.in_force_from(CellPlace { place, half, slot }.start(), period)
    }
}

// A book's words, and F and S as they hold them: a total goes through the cells of every facility. Below judging's Book, which makes it.
#[derive(Clone, Copy, Debug, PartialEq, Eq)]
pub struct Cells<'a> {
    pub words: &'a [i32],
    pub sizes: Sizes,
    pub ghost sized: { Sized words.now sizes.facilities sizes.services },
}

impl<'a> Cells<'a> {
    // "word 0 counts facilities with an offer in force, other words zero; sum over them"
    #[tactic(auto, using(crate::proofs::Halves::first_place, crate::proofs::Halves::next_place, book_rules::proofs::Places::cell_inside), unfolding(book_rules::specs::Force::count_in_force, book_rules::specs::Force::sum_in_force, book_rules::specs::Force::totalled, book_rules::specs::Refusals::total_reply, book_rules::specs::Book::book_view))]
    pub fn total(&self, s: usize, period: Period) -> Answer
        requires { s < self.now.sizes.services }
        ensures { answer_of result ≡ total_reply (book_view self.now.words.now) s period.number }
    {
        let words = self.words;
        let sizes = self.sizes;
        let mut t = Tally::default();
        // Where the facility's standing cell begins, summed up from one to the next: by its number, the compiler works out the place of each variation anew, and
        // a total of variations takes a quarter longer.
        let mut at = sizes.first_cell()
            + cell::SERVICE_WORDS * s
            + cell::WORDS * period.slot().number;
        // Facility numbers are values here: no slice is indexed by them.
        // A loop: a fold was tried, and isn't proved, as its closure isn't told the bounds of the tally that it is given.
        for f in 0..sizes.facilities {
            let place = Place { sizes, f, s };
            t = t.with(PlaceCells { words, place }.in_force_from(at, period));
            at += cell::SERVICE_WORDS * sizes.services;
        }
        let mut words = [0; answer::WORDS];
        words[answer::FIRST] = t.count as i32;
        Answer {
            number: 0,
            words,
            sum: t.sum,
        }
    }
}
