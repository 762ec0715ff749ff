// Where a cell stands in the book's words.
ghost use Rattle.std.specs.Prelude.{◌≡◌, ◌+◌, ◌≤◌, ◌<◌};
ghost use Rattle.book_rules.specs.Words.{book_size, cell_place};
ghost use Rattle.cells.specs.Meaning.{half_number};

use layout::{Sizes, Slot, cell};

// "h 0 standing, 1 variation"
#[derive(Clone, Copy, Debug, PartialEq, Eq)]
pub enum Half {
    Standing = 0,
    Variation = 1,
}

impl From<Half> for usize {
    ghost from_gives = { λ half n. (n ≡ half_number half) × (n < 2) };

    fn from(half: Half) -> usize {
        half as usize // its discriminant
    }
}

// A facility's cells for one service: those of facility f and service s, in a book of these sizes.
#[derive(Clone, Copy, Debug, PartialEq, Eq)]
pub struct Place {
    pub sizes: Sizes,
    pub f: usize,
    pub s: usize,
    pub ghost inside: { (f < sizes.facilities) × (s < sizes.services) },
}

#[derive(Clone, Copy, Debug, PartialEq, Eq)]
pub struct CellPlace {
    pub place: Place,
    pub half: Half,
    pub slot: Slot,
}

impl CellPlace {
    // "numbered ((f·S + s)·2 + h)·336 + slot", added up by services, whose cells a total passes over
    #[tactic(auto, unfolding(book_rules::specs::Words::cell_place))]
    pub(crate) fn start(self) -> usize
        ensures place { result ≡ cell_place self.place.sizes.facilities self.place.sizes.services self.place.f self.place.s (half_number self.half) self.slot.number }
        ensures room { result + 24 ≤ book_size self.place.sizes.facilities self.place.sizes.services }
    {
        let Place { sizes, f, s } = self.place;
        sizes.first_cell()
            + cell::SERVICE_WORDS * (f * sizes.services + s)
            + cell::WORDS * (usize::from(self.half) * cell::SLOTS + self.slot.number)
    }
}
