// The offer rules, refusals 10 to 16 (document 01, "Who draws which number"), below the book.
// An offer is 23 words (proportion, ramps, ten pairs), a facility's capability 17 words W0 to W16, the price limits 6 words.
// A bound stands beside a number's equation for callers that don't unfold the rule.
#![tactic(auto)]

ghost use Rattle.std.specs.Prelude.{◌≡◌, ◌≤◌, false, IfOk};
ghost use Rattle.offer_rules.specs.Time.{slot_refused, period_refused};
ghost use Rattle.offer_rules.specs.Offer.{pairs, blank_before_filled, offer_number};
ghost use Rattle.layout.specs.Refusal.{drawn};
ghost use Rattle.offers.specs.PairTests.{UsesFive};

mod capability;
mod filed;
mod limits;
mod pairs;
mod passed;
mod sum;
mod walk;

use filed::Filed;
use layout::{Refusal, Service, facility, fields, head, offer, refuse_if, time};
use limits::PriceLimits;
pub use pairs::{sum_of, words_of_pairs};
pub use passed::Passed;
use units::{is_beyond, nat};

// ---- 10: slots and periods

// "slot outside 0–335"
pub fn is_slot_refused(slot: i32) -> bool
    ensures { result ≡ slot_refused slot }
{
    is_beyond(0, time::LAST_SLOT, slot)
}

// "P begun (30·P ≤ now) or P ≥ 48·(d + 7)". A period below 0 counts as period 0, which starts at minute 0 and has begun.
// Any clock, also one that no Minute has.
#[tactic(auto, using(crate::proofs::Begun::refused_as_count))]
pub fn is_period_refused(clock: u64, period: i32) -> bool
    ensures { result ≡ period_refused clock period }
{
    let p = nat(period);
    let day = clock / time::DAY_MINUTES;
    (time::PERIOD_MINUTES * p <= clock) | (time::DAY_PERIODS * (day + time::HORIZON_DAYS) <= p)
}

// ---- 11 to 16

// The first that applies. Where none does, "all non-blank pairs come first".
#[tactic(auto, using(layout::proofs::Chains::passed_first, layout::proofs::Chains::refused_first, layout::proofs::Chains::is_drawn, crate::proofs::InOrder::in_order, crate::proofs::InOrder::pairs_most))]
fn judge(
    limits: &[i32; head::LIMIT_COUNT],
    capability: &[i32; facility::CAPABILITY],
    service: Service,
    reason: u8,
    offer: &[i32; offer::WORDS],
) -> Result<(), Refusal>
    requires { UsesFive service.number offer.now }
    ensures number { drawn result ≡ offer_number limits.now capability.now service.number reason offer.now }
    ensures bound { drawn result ≤ 16 }
    ensures passed { drawn result ≡ 0 → blank_before_filled (pairs offer.now) ≡ false }
{
    refuse_if(fields::LOAD_OUTAGE < reason, Refusal::OutOfRange)?;
    let filed = Filed {
        service,
        limits: PriceLimits::of_service(limits, service),
        offer,
    };
    let total = filed.judge_pairs()?;
    refuse_if(filed.is_ramp_refused(capability), Refusal::Ramp)?;
    refuse_if(filed.is_proportion_refused(capability), Refusal::Proportion)?;
    refuse_if(
        filed.is_above_capacity(capability, total),
        Refusal::AboveCapacity,
    )
}

// The offer where none applies. What refusal 4 left is asked of service and offer together: a series has the one, a record the other. Its reason and its words are two parameters, as a record has them apart: what has passed both is a Passed.
// In line over `judge`, which returns in a register what a call out of line would store and read again.
#[inline(always)]
pub fn check_offer<'a>(
    limits: &[i32; head::LIMIT_COUNT],
    capability: &[i32; facility::CAPABILITY],
    service: Service,
    reason: u8,
    offer: &'a [i32; offer::WORDS],
) -> Result<Passed<'a>, Refusal>
    requires { UsesFive service.number offer.now }
    ensures number { drawn result ≡ offer_number limits.now capability.now service.number reason offer.now }
    ensures bound { drawn result ≤ 16 }
    ensures passed { IfOk result (λ p. (p.reason ≡ reason) × (p.offer.now ≡ offer.now)) }
{
    judge(limits, capability, service, reason, offer)?;
    Ok(Passed { reason, offer })
}
