// "Then cells of 24 words, numbered ((f·S + s)·2 + h)·336 + slot, h 0 standing, 1 variation: 0 stamp (0 empty, 1 standing, P + 1 variation),
// 1 proportion, .. 4–23 pairs"; "word 2 becomes ramp up times 10,000 plus ramp down, word 3 the minute" of acceptance.
ghost use Rattle.std.specs.Prelude.{◌<◌};

use crate::time;

pub const STAMP: usize = 0;

pub const PROPORTION: usize = 1;

pub const RAMPS: usize = 2;

pub const MINUTE: usize = 3;

pub const PAIRS: usize = 4;

pub const WORDS: usize = 24;

pub const RAMP_UNIT: i32 = 10000;

// `as`, as From is no const function.
pub const SLOTS: usize = time::SLOTS as usize;

// "16,128·F·S": the cells of a facility for one service, two halves of a cell for each slot.
pub const SERVICE_WORDS: usize = 2 * SLOTS * WORDS;

// "0 stamp (0 empty, 1 standing, P + 1 variation)": a number, which a cell's word 0 holds, and no enum.
#[derive(Clone, Copy, Debug, PartialEq, Eq)]
pub struct Stamp {
    pub number: u32,
    pub ghost in_a_word: { number < 2147483648 },
}

impl Stamp {
    pub const EMPTY: Stamp = Stamp { number: 0 };

    pub const STANDING: Stamp = Stamp { number: 1 };
}
