// A slot's next period, for C.
#![tactic(auto)]

ghost use Rattle.std.specs.Prelude.{◌≡◌};
ghost use Rattle.offer_rules.specs.Time.{slot_of, IsNext, next_period};

#[unsafe(no_mangle)]
pub extern "C" fn bilzhaan_next_period(minute: u32, slot: u32) -> u32
    ensures { (result ≡ next_period minute (slot_of slot)) × IsNext minute (slot_of slot) result }
{
    periods::bilzhaan_next_period(minute, slot)
}
