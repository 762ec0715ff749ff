// What is filed of an offer.
ghost use Rattle.std.specs.Prelude.{◌≡◌, true};
ghost use Rattle.book_rules.specs.Words.{ramps_fit};

use layout::{Minute, Stamp, offer};

// An accepted offer, the minute of its acceptance, and the stamp that its cell gets.
#[derive(Clone, Copy, Debug, PartialEq, Eq)]
pub struct Filing<'a> {
    pub stamp: Stamp,
    pub minute: Minute,
    pub offer: &'a [i32; offer::WORDS],
    pub ghost ramps_fit: { ramps_fit offer.now ≡ true },
}
