// An offer's 23 words: what calls 3 and 4 carry, and what a look-up answers after word 0.
pub const PROPORTION: usize = 0;

pub const RAMP_UP: usize = 1;

pub const RAMP_DOWN: usize = 2;

pub const PAIRS: usize = 3;

pub const WORDS: usize = 23;

pub const PAIR_COUNT: usize = 10;

// "for 1 to 3 the proportion and five pairs; for 4 five pairs"
pub const FEWER_PAIRS: usize = 5;

// The words of all, price and quantity each.
pub const PAIR_WORDS: usize = 2 * PAIR_COUNT;

// 8 and 11 "outside 0–99,999": of a maximum and of a quantity
pub const MOST_QUANTITY: i32 = 99999;

// 14 "also covers a ramp above 9,999"
pub const MOST_RAMP: i32 = 9999;
