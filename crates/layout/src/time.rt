// "Units and time", and the limits of minutes and periods.
// Narrowing stays `as`, proved to lose nothing: a `try_from` would be tested as it runs.
ghost use Rattle.std.specs.Prelude.{◌≡◌, ◌+◌, ◌≤◌, ◌<◌};
ghost use Rattle.offer_rules.specs.Time.{slot_of};

use crate::cell::Stamp;

pub const PERIOD_MINUTES: u64 = 30;

pub const DAY_MINUTES: u64 = 1440;

pub const DAY_PERIODS: u64 = 48;

// "The slot of P is P mod 336."
pub const SLOTS: u64 = 336;

pub const LAST_SLOT: i32 = SLOTS as i32 - 1;

// "slot outside 0–335" draws 10.
#[derive(Clone, Copy, Debug, PartialEq, Eq)]
pub struct Slot {
    pub number: usize,
    pub ghost in_week: { number < 336 },
}

// A half hour, counted from the start of 2024, that has a stamp: a cell's word holds P + 1.
#[derive(Clone, Copy, Debug, PartialEq, Eq)]
pub struct Period {
    pub number: u64,
    pub ghost stamped: { number < 2147483647 },
}

impl Period {
    pub fn slot(self) -> Slot
        ensures { result.number ≡ slot_of self.number }
    {
        Slot {
            number: (self.number % SLOTS) as usize,
        }
    }

    pub fn stamp(self) -> Stamp
        ensures { result.number ≡ self.number + 1 }
    {
        Stamp {
            number: (self.number + 1) as u32,
        }
    }
}

// "windows 1 to 0 (empty)"
pub const EMPTY_WINDOW: [i32; 2] = [1, 0];

// "P ≥ 48·(d + 7)"
pub const HORIZON_DAYS: u64 = 7;

// "A variation is open when 30·P − now is 65 or more."
pub const GATE_CLOSURE_MINUTES: u64 = 65;

// "Word 0 is 3 for standing and 4 for variation while now minus that minute is below 5."
pub const SCHEDULE_CUTOFF_MINUTES: i64 = 5;

pub const LAST_MINUTE: i32 = 1000000000;

// What a clock shows, or "the minute" of acceptance: "clock outside 0 to 1,000,000,000" draws 1.
#[derive(Clone, Copy, Debug, PartialEq, Eq)]
pub struct Minute {
    pub number: u64,
    pub ghost timely: { number ≤ 1000000000 },
}

// "not 0 ≤ A ≤ B ≤ 40,000,000"
pub const LAST_NOTICE_PERIOD: i32 = 40000000;

// "for 2024 to 2099", and the last period of 31 December 2099
pub const FIRST_YEAR: u64 = 2024;

pub const LAST_YEAR: u64 = 2099;

pub const LAST_DATED_PERIOD: i32 = 1332431;
