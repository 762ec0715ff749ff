// A record's fields, as places in its bytes.
// "Bytes 0–2 `SOB`; 3–4 version 1; 5 call; 6 facility; 7 service; 8–11 period word; 12 reason; 13 zero; 14–15 proportion (0 to 65,535);
// 16–19 ramp up; 20–23 ramp down; 24–27 A; 28–31 B; 32–111 words W0 to W19, in offers ten pairs (price, quantity)."
pub const CALL: usize = 5;

pub const FACILITY: usize = 6;

pub const SERVICE: usize = 7;

pub const PERIOD: usize = 8;

pub const REASON: usize = 12;

pub const ZERO: usize = 13;

pub const PROPORTION: usize = 14;

pub const RAMP_UP: usize = 16;

pub const RAMP_DOWN: usize = 20;

pub const A: usize = 24;

pub const B: usize = 28;

pub const W0: usize = 32;

pub const BYTES: usize = 112;

// Byte 12: the first and the last kind of a notice, and the last reason. Numbers, as document 01 asks: where byte 5 or 12 selects, a match has the paper's.
pub const ENERGY_SURPLUS: u8 = 3;

pub const SYSTEM_STATUS: u8 = 5;

pub const LOAD_OUTAGE: u8 = 6;
