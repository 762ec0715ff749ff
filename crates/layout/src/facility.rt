// A facility's 32 words, of which the first 17 are its capability as call 2 carries it: W0 to W16.
// "0 kind (0: none); 1–16 W1 to W16; 17, 18 outage window; the rest zero"
pub const KIND: usize = 0;

pub const MAX_GENERATION: usize = 1;

pub const MAX_COMBINED: usize = 2;

pub const MAX_RESERVE: usize = 3;

pub const MAX_RAMP_UP: usize = 7;

pub const MAX_RAMP_DOWN: usize = 8;

pub const MAX_PROPORTION: usize = 9;

pub const REGISTERED: usize = 12;

// The word of service s is s words further: W3 to W6 for services 1 to 4, W9 to W11 for services 1 to 3.
pub const MAX_OF_SERVICE: usize = MAX_RESERVE - 1;

pub const MAX_PROPORTION_OF_SERVICE: usize = MAX_PROPORTION - 1;

pub const CAPABILITY: usize = 17;

pub const OUTAGE: usize = 17;

pub const WORDS: usize = 32;
