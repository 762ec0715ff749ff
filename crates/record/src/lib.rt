// A record's bytes: its words, the bytes that its call uses, and refusals 2, 3 and 4 of it.
#![tactic(auto)]

ghost use Rattle.std.specs.Prelude.{◌≡◌, ℕ, ◌+◌, ◌*◌, ◌≤◌, length, drop, not, ◌&&◌, ◌||◌, eqb, IfOk};
ghost use Rattle.std.specs.List.{list_any};
ghost use Rattle.book_rules.specs.Record.{word_at, words_at, period_word, offer_in, capability_in};
ghost use Rattle.book_rules.specs.Record.{used, is_record, outside, any_stray, has_stray};
ghost use Rattle.book_rules.specs.Record.{record_number, sizes_ok, record_test};
ghost use Rattle.layout.specs.Refusal.{drawn};

use layout::fields::{
    A, B, BYTES, CALL, FACILITY, PERIOD, PROPORTION, RAMP_DOWN, RAMP_UP, REASON, SERVICE, W0, ZERO,
};
use layout::{Refusal, facility, head, offer, refuse_if, service};
use std::array;
use units::{copy_array, nat};

// A record's 112 bytes.
pub type Record = [u8; BYTES];

// The words past an offer's five pairs and past a capability's W16.
const W10: usize = W0 + 4 * (2 * offer::FEWER_PAIRS);

const W17: usize = W0 + 4 * facility::CAPABILITY;

// "Words are signed 32-bit, most significant byte first." Of bytes and a place, as the rule's `word_at`.
#[tactic(auto, using(crate::proofs::TwosComplement::four_signed, units::proofs::Counts::word_back))]
pub fn word_at(bytes: &[u8], at: usize) -> i32
    requires { at + 4 ≤ length bytes.now }
    ensures { result ≡ word_at bytes.now at }
{
    i32::from_be_bytes(*bytes[at..at + 4].as_array().unwrap())
}

// N words from byte `at` on.
pub fn words_at<const N: usize>(bytes: &[u8], at: usize) -> [i32; N]
    requires { at + 4 * N ≤ length bytes.now }
    ensures { result ≡ words_at bytes.now at N }
{
    array::from_fn(|i| word_at(bytes, at + 4 * i))
}

// "8–11 period word": a slot in call 3, a period P in calls 4, 8 and 9.
pub fn period_word(bytes: &Record) -> i32
    ensures { result ≡ period_word bytes.now }
{
    word_at(bytes, PERIOD)
}

// Cell words 1 to 23 that a call carries: proportion, "0 to 65,535", ramps, pairs. The caller lends them: 23 words returned are copied.
pub fn read_offer(bytes: &Record, words: &mut [i32; offer::WORDS])
    ensures { words.new ≡ offer_in bytes.now }
{
    let proportion = [bytes[PROPORTION], bytes[PROPORTION + 1]];
    words[offer::PROPORTION] = i32::from(u16::from_be_bytes(proportion));
    words[offer::RAMP_UP] = word_at(bytes, RAMP_UP);
    words[offer::RAMP_DOWN] = word_at(bytes, RAMP_DOWN);
    let pairs: [i32; offer::PAIR_WORDS] = words_at(bytes, W0);
    copy_array(&mut words[offer::PAIRS..], &pairs);
}

// W0 to W16.
#[tactic(auto, unfolding(book_rules::specs::Record::capability_in))]
pub fn capability_in(bytes: &Record) -> [i32; facility::CAPABILITY]
    ensures { result ≡ capability_in bytes.now }
{
    words_at(bytes, W0)
}

// 2 "not 112 bytes, or mark, version or call wrong", of 112 bytes.
fn is_record(bytes: &Record) -> bool
    ensures { result ≡ is_record bytes.now }
{
    bytes.starts_with(b"SOB\0\x01") && (1..=9).contains(&bytes[CALL])
}

// The calls that use byte 6, the facility. This and the next are each a match over byte 5's nine numbers, with ranges for unknown values, as document 01 asks.
// An arm for each number: joined to `2..=5 | 8`, or to `2 | 3 | 4 | 5 | 8`, they are compiled to comparisons, and each record test takes four instructions more.
#[tactic(auto, using(crate::proofs::UnknownCalls::unknown_uses_none), unfolding(book_rules::specs::Record::used))]
fn uses_facility(call: u8) -> bool
    ensures { (s : ℕ) → result ≡ used call s 6 }
{
    match call {
        1 => false,
        2 => true,
        3 => true,
        4 => true,
        5 => true,
        6 => false,
        7 => false,
        8 => true,
        9 => false,
        0 | 10..=255 => false,
    }
}

// The calls that use byte 7, the service.
#[tactic(auto, using(crate::proofs::UnknownCalls::unknown_uses_none), unfolding(book_rules::specs::Record::used))]
fn uses_service(call: u8) -> bool
    ensures { (s : ℕ) → result ≡ used call s 7 }
{
    match call {
        1 => false,
        2 => false,
        3 => true,
        4 => true,
        5 => false,
        6 => false,
        7 => false,
        8 => true,
        9 => true,
        0 | 10..=255 => false,
    }
}

// 3 "facility ≥ F or service ≥ S, where used". Most records have both below, and then no call is told from another:
// a match ahead of the tests was measured, and takes an offer two or three instructions more.
#[tactic(auto, unfolding(book_rules::specs::Record::outside))]
fn is_outside(bytes: &Record, facilities: u64, services: u64) -> bool
    ensures { result ≡ outside bytes.now facilities services }
{
    let call = bytes[CALL];
    let no_facility = facilities <= u64::from(bytes[FACILITY]);
    let no_service = services <= u64::from(bytes[SERVICE]);
    (no_facility && uses_facility(call)) || (no_service && uses_service(call))
}

// Whether a byte of a gap is not zero, asked of all without a branch. A fold takes some ten instructions more for an offer of service 1 to 4.
fn any_set(gap: &[u8]) -> bool
    ensures { result ≡ list_any (λ byte. not (eqb byte 0)) gap.now }
{
    let mut any = false;
    for byte in gap {
        any |= *byte != 0;
    }
    any
}

// 4 of an offer, standing or variation, by its service.
// "An offer for service 0 uses both ramps and ten pairs; for 1 to 3 the proportion and five pairs; for 4 five pairs."
// The gaps of service 0 are tested apart: A and B by themselves are one comparison of eight bytes.
// In line, or calls 3 and 4 share a copy out of line, which takes some ten instructions more.
#[inline(always)]
fn has_stray_beside_offer(bytes: &Record, service: u8) -> bool
    ensures { result ≡ any_stray (used 3 service) 6 (drop 6 bytes.now) }
{
    if service == service::ENERGY {
        any_set(&bytes[ZERO..RAMP_UP]) || any_set(&bytes[A..W0])
    } else if service < service::REGULATION {
        any_set(&bytes[ZERO..PROPORTION]) | (any_set(&bytes[RAMP_UP..W0]) | any_set(&bytes[W10..]))
    } else {
        any_set(&bytes[ZERO..W0]) | any_set(&bytes[W10..])
    }
}

// 4 "an unused byte not zero": the gaps between the bytes of "The nine calls and what they use", from byte 6 on.
// Their ends are constants: a match for each byte takes thirty times as long. 3 and 4 apart: `3 | 4` is compiled to tests after the jump.
fn has_stray(bytes: &Record) -> bool
    ensures { result ≡ has_stray bytes.now }
{
    let call = bytes[CALL];
    match call {
        1 => any_set(&bytes[FACILITY..A]) | any_set(&bytes[B..]),
        2 => any_set(&bytes[SERVICE..W0]) | any_set(&bytes[W17..]),
        3 => has_stray_beside_offer(bytes, bytes[SERVICE]),
        4 => has_stray_beside_offer(bytes, bytes[SERVICE]),
        5 => any_set(&bytes[SERVICE..A]) | any_set(&bytes[W0..]),
        6 => any_set(&bytes[FACILITY..REASON]) | (any_set(&bytes[ZERO..A]) | any_set(&bytes[W0..])),
        7 => any_set(&bytes[FACILITY..REASON]) | any_set(&bytes[ZERO..]),
        8 => any_set(&bytes[REASON..]),
        9 => any_set(&bytes[FACILITY..SERVICE]) | any_set(&bytes[REASON..]),
        0 | 10..=255 => any_set(&bytes[FACILITY..]),
    }
}

// 2, 3, 4, for F facilities and S services; else the record. For every F and S: layout::Sizes, of 64 and 5 at most, would ask more of callers.
#[tactic(auto, using(layout::proofs::Chains::passed_first, layout::proofs::Chains::refused_first, crate::proofs::Refused::other_length), unfolding(book_rules::specs::Record::record_number))]
pub fn test_record(bytes: &[u8], facilities: u64, services: u64) -> Result<&Record, Refusal>
    ensures number { drawn result ≡ record_number bytes.now facilities services }
    ensures most { drawn result ≤ 4 }
    ensures same { IfOk result (λ r. r.now ≡ bytes.now) }
{
    let record = bytes.as_array().ok_or(Refusal::NotARecord)?;
    refuse_if(!is_record(record), Refusal::NotARecord)?;
    refuse_if(is_outside(record, facilities, services), Refusal::NotInBook)?;
    refuse_if(has_stray(record), Refusal::UnusedByte)?;
    Ok(record)
}

// "F not 1 to 64, S not 1 or 5"
#[tactic(auto, unfolding(book_rules::specs::Record::sizes_ok))]
pub fn is_sized(facilities: i32, services: i32) -> bool
    ensures { result ≡ sizes_ok facilities services }
{
    (1..=head::MOST_FACILITIES).contains(&facilities)
        & ((services == head::ONE_SERVICE) | (services == head::ALL_SERVICES))
}

// 20 where F or S is wrong, else 2, 3 and 4: what the gateway's C program asks, and for every F and S, as it may send any.
#[tactic(auto, using(layout::proofs::Chains::passed_first, layout::proofs::Chains::refused_first, units::proofs::Counts::word_back), unfolding(book_rules::specs::Record::record_test))]
pub fn test_sized_record(bytes: &[u8], facilities: i32, services: i32) -> Result<(), Refusal>
    ensures { drawn result ≡ record_test bytes.now facilities services }
{
    refuse_if(!is_sized(facilities, services), Refusal::Opening)?;
    test_record(bytes, nat(facilities), nat(services))?;
    Ok(())
}
