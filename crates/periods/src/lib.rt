// Units and time: a slot's next period, for the gate and for C.
#![tactic(auto)]

ghost use Rattle.std.specs.Prelude.{◌≡◌};
ghost use Rattle.offer_rules.specs.Time.{slot_of, IsNext, next_period};

use layout::time;

// Two numbers under the name that C has: it asks nothing of either, and the step that is proved is the one that is called.
// "the least period of that slot not yet begun", "by remainder arithmetic alone": 335·first is 336·first − first, so the remainder is how many periods the
// slot lies after first. (slot + 336 − first mod 336) mod 336 is the same, but in the call, where the slot is known to be below 336, it is compiled to a
// conditional move. A slot of 336 or more is taken mod 336. `as` narrows without loss here, and without the branch of `try_from`.
pub fn bilzhaan_next_period(minute: u32, slot: u32) -> u32
    ensures { (result ≡ next_period minute (slot_of slot)) × IsNext minute (slot_of slot) result }
{
    let first = u64::from(minute) / time::PERIOD_MINUTES + 1;
    (first + (u64::from(slot) + (time::SLOTS - 1) * first) % time::SLOTS) as u32
}
