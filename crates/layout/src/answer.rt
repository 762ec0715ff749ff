// A look-up's answer: "word 0 is 1 (standing) or 2 (variation)", and "3 for standing and 4 for variation" while it is fresh; the offer's words follow it.
use crate::offer;

// "24 words"
pub const WORDS: usize = 24;

// Word 0: of a look-up what was found, of a total how many facilities have "an offer in force".
pub const FIRST: usize = 0;

// Numbers, as a look-up's word 0 is one.
pub const STANDING: i32 = 1;

pub const VARIATION: i32 = 2;

pub const FRESH_STANDING: i32 = 3;

pub const FRESH_VARIATION: i32 = 4;

pub const OFFER: usize = 1;

pub const PROPORTION: usize = OFFER + offer::PROPORTION;

pub const RAMP_UP: usize = OFFER + offer::RAMP_UP;

pub const RAMP_DOWN: usize = OFFER + offer::RAMP_DOWN;

pub const PAIRS: usize = OFFER + offer::PAIRS;
