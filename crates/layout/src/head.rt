// A book's head, as words from its start.
// "Head: 0 the mark 0x534F42; 1 version ..; 2 F; 3 S; 4 clock; 5–10 first and last of notices 3, 4, 5;
// 11, 12 lowest and highest energy price; 13–16 highest price of services 1 to 4; the rest to 63 zero."
pub const MARK: usize = 0;

pub const VERSION: usize = 1;

pub const FACILITIES: usize = 2;

pub const SERVICES: usize = 3;

pub const CLOCK: usize = 4;

pub const ENERGY_SURPLUS: usize = 5;

pub const SHORTFALL: usize = 7;

pub const SYSTEM_STATUS: usize = 9;

pub const LIMITS: usize = 11;

pub const LIMIT_COUNT: usize = 6;

pub const LIMITS_END: usize = LIMITS + LIMIT_COUNT;

pub const WORDS: usize = 64;

// What words 0 and 1 hold. "The book's version, head word 1, becomes 2."
pub const BOOK_MARK: i32 = 0x534F42;

pub const BOOK_VERSION: i32 = 2;

// "F not 1 to 64, S not 1 or 5"
pub const MOST_FACILITIES: i32 = 64;

pub const ONE_SERVICE: i32 = 1;

pub const ALL_SERVICES: i32 = 5;
