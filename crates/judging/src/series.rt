// A facility's offers for one service.
// `nat(..) as usize` loses nothing: of u64 and usize there is no From.
ghost use Rattle.std.specs.Prelude.{◌≡◌, true, false, ◌≤◌, ◌<◌, IfOk, IfSome, IfNone};
ghost use Rattle.offer_rules.specs.Numbers.{to_nat, word, draw, ◌then◌};
ghost use Rattle.offer_rules.specs.Time.{slot_refused, period_refused, next_period};
ghost use Rattle.offer_rules.specs.Offer.{pairs_in, pairs, offer_number};
ghost use Rattle.offer_rules.specs.Gate.{is_open};
ghost use Rattle.layout.specs.Refusal.{drawn};
ghost use Rattle.book_rules.specs.Record.{facility_of, service_of};
ghost use Rattle.book_rules.specs.Words.{part, clock_place, limits_place, facility_place};
ghost use Rattle.book_rules.specs.Force.{in_force, will_stand, pairs_of};
ghost use Rattle.book_rules.specs.Refusals.{facility_number, registration_number, gate_number, admission_number, revision_number, admitted_standing, grounds};
ghost use Rattle.book_rules.specs.Book.{facilities_in, services_in, book_view};
ghost use Rattle.offers.specs.PairTests.{UsesFive};
ghost use Rattle.gate.specs.Meaning.{words_held, words_of};
ghost use Rattle.cells.specs.Meaning.{held_by};
ghost use Rattle.judging.specs.Usable.{Usable};

use crate::facility::Facility;
use cells::{Cell, Place, PlaceCells};
use gate::{Filed, Filing, Held, Offer};
use layout::{Period, Refusal, Service, Slot, fields, offer, refuse_if};
use offers::{Passed, is_slot_refused};
use units::nat;

// 10 of a standing offer's slot. Not Slot's TryFrom: Slot stands in layout, below offers, where 10 is proved.
#[tactic(auto, using(layout::proofs::Chains::draw_most, crate::proofs::Near::in_week))]
fn check_slot(slot: i32) -> Result<Slot, Refusal>
    ensures number { drawn result ≡ draw (slot_refused slot) 10 }
    ensures bound { drawn result ≤ 10 }
    ensures slot { IfOk result (λ k. k.number ≡ to_nat slot) }
{
    refuse_if(is_slot_refused(slot), Refusal::Period)?;
    Ok(Slot {
        number: nat(slot) as usize,
    })
}

#[derive(Clone, Copy, Debug, PartialEq, Eq)]
pub struct Series<'a> {
    pub facility: Facility<'a>,
    pub service: Service,
    pub ghost inside: { service.number < services_in facility.book.words.now },
}

impl<'a> Series<'a> {
    // The ones that a record names.
    pub fn named(book: &'a [i32], bytes: &[u8; fields::BYTES]) -> Series<'a>
        requires usable { Usable book.now }
        requires facility_in { facility_of bytes.now < facilities_in book.now }
        requires service_in { service_of bytes.now < services_in book.now }
        ensures { (result.facility.book.words.now ≡ book.now) × (result.facility.f ≡ facility_of bytes.now) × (result.service.number ≡ service_of bytes.now) }
    {
        Series {
            facility: Facility::named(book, bytes),
            service: Service {
                number: bytes[fields::SERVICE],
            },
        }
    }

    // Where its cells stand.
    pub fn place(&self) -> Place
        ensures sizes { (result.sizes.facilities ≡ facilities_in self.now.facility.book.words.now) × (result.sizes.services ≡ services_in self.now.facility.book.words.now) }
        ensures place { (result.f ≡ self.now.facility.f) × (result.s ≡ self.now.service.number) }
    {
        Place {
            sizes: self.facility.book.sizes(),
            f: self.facility.f,
            s: self.service.place(),
        }
    }

    pub fn cells(&self) -> PlaceCells<'a>
        ensures { (result.words.now ≡ self.now.facility.book.words.now) × (result.place.f ≡ self.now.facility.f) × (result.place.s ≡ self.now.service.number) }
    {
        PlaceCells {
            words: self.facility.book.words,
            place: self.place(),
        }
    }

    // 5 and 9 of an offer.
    #[tactic(auto, using(layout::proofs::Chains::passed_first, layout::proofs::Chains::refused_first))]
    pub fn check_registered(&self) -> Result<(), Refusal>
        ensures number { drawn result ≡ (facility_number (part (facility_place self.now.facility.f) 17 self.now.facility.book.words.now) then registration_number (part (facility_place self.now.facility.f) 17 self.now.facility.book.words.now) self.now.service.number) }
        ensures bound { drawn result ≤ 9 }
    {
        let capability = self.facility.capability();
        refusals::check_kind(capability)?;
        refusals::check_registration(capability, self.service)
    }

    // 5, 9 and 10 of a standing offer, which ask for none of its words: its slot, where none is drawn.
    #[tactic(auto, using(layout::proofs::Chains::passed_first, layout::proofs::Chains::refused_first, crate::proofs::Stages::admission_parts))]
    pub fn admit_standing(&self, slot: i32) -> Result<Slot, Refusal>
        ensures number { drawn result ≡ admission_number (part (facility_place self.now.facility.f) 17 self.now.facility.book.words.now) self.now.service.number (slot_refused slot) }
        ensures bound { drawn result ≤ 10 }
        ensures slot { IfOk result (λ k. k.number ≡ to_nat slot) }
    {
        self.check_registered()?;
        check_slot(slot)
    }

    // 5, 9 and 10 of a variation: its period.
    #[tactic(auto, using(layout::proofs::Chains::passed_first, layout::proofs::Chains::refused_first, crate::proofs::Stages::admission_parts), unfolding(book_rules::specs::Refusals::period_number))]
    pub fn admit_variation(&self, period: i32) -> Result<Period, Refusal>
        ensures number { drawn result ≡ admission_number (part (facility_place self.now.facility.f) 17 self.now.facility.book.words.now) self.now.service.number (period_refused (to_nat (word self.now.facility.book.words.now clock_place)) period) }
        ensures bound { drawn result ≤ 10 }
        ensures period { IfOk result (λ p. p.number ≡ to_nat period) }
    {
        self.check_registered()?;
        self.facility.book.check_period(period)
    }

    // 11 to 16 of an offer, under the book's limits and the facility's capability.
    #[inline(always)]
    pub fn check_offer<'b>(
        &self,
        reason: u8,
        offer: &'b [i32; offer::WORDS],
    ) -> Result<Passed<'b>, Refusal>
        requires { UsesFive self.now.service.number offer.now }
        ensures number { drawn result ≡ offer_number (part limits_place 6 self.now.facility.book.words.now) (part (facility_place self.now.facility.f) 17 self.now.facility.book.words.now) self.now.service.number reason offer.now }
        ensures bound { drawn result ≤ 16 }
        ensures passed { IfOk result (λ p. (p.reason ≡ reason) × (p.offer.now ≡ offer.now)) }
    {
        offers::check_offer(
            self.facility.book.limits(),
            self.facility.capability(),
            self.service,
            reason,
            offer,
        )
    }

    // ---- the gate

    // "old", the offer in force before the call
    #[tactic(auto, unfolding(offer_rules::specs::Offer::pairs_in, book_rules::specs::Force::pairs_of))]
    fn before(&self, period: Period) -> Option<Held<'a>>
        ensures { pairs_in (words_held result) ≡ pairs_of (in_force (book_view self.now.facility.book.words.now) self.now.facility.f self.now.service.number period.number) }
    {
        let old = self.cells().in_force(period);
        old.map(|old| Held { words: old.pairs() })
    }

    // "the offer that will stand afterwards": the filed one, or where it is all blank the slot's standing offer, or none where none is held.
    #[tactic(auto, unfolding(offer_rules::specs::Offer::pairs_in, offer_rules::specs::Offer::pairs, book_rules::specs::Force::pairs_of, book_rules::specs::Force::first_of, book_rules::specs::Force::variation_made, book_rules::specs::Force::will_stand))]
    fn afterwards<'b>(&'b self, period: Period, filed: Passed<'b>) -> Option<Offer<'b>>
        ensures { pairs_in (words_of result) ≡ pairs_of (will_stand (book_view self.now.facility.book.words.now) self.now.facility.f self.now.service.number period.number filed.entry.offer.now) }
    {
        if !filed.is_all_blank() {
            let words = filed.pairs();
            return Some(Offer::Filed(Filed { words }));
        }
        let held = self.cells().held_standing(period.slot());
        held.map(|held| {
            let words = held.pairs();
            Offer::Held(Held { words })
        })
    }

    // A filing for this period, where it is one inside gate closure.
    fn filing_inside(&self, period: Period, reason: u8) -> Option<Filing>
        ensures open { IfNone result (is_open (to_nat (word self.now.facility.book.words.now clock_place)) period.number ≡ true) }
        ensures shut { IfSome result (λ filing. is_open (to_nat (word self.now.facility.book.words.now clock_place)) period.number ≡ false) }
        ensures filing { IfSome result (λ filing. (filing.service ≡ self.now.service.number) × (filing.period ≡ period.number) × (filing.reason ≡ reason)) }
    {
        if self.facility.book.is_before_closure(period) {
            return None;
        }
        Some(Filing {
            service: self.service.number,
            period: period.number,
            reason,
        })
    }

    // 17 of a variation. Before closure, where most are filed, no offer is looked up.
    // "The gate compares old with the offer that will stand afterwards".
    #[tactic(auto, using(crate::proofs::Stages::open_draws_none))]
    pub fn check_variation_gate(&self, period: Period, filed: Passed<'_>) -> Result<(), Refusal>
        ensures number { drawn result ≡ gate_number (to_nat (word self.now.facility.book.words.now clock_place)) (grounds (book_view self.now.facility.book.words.now) self.now.facility.f) self.now.service.number period.number filed.entry.reason (pairs_of (in_force (book_view self.now.facility.book.words.now) self.now.facility.f self.now.service.number period.number)) (pairs_of (will_stand (book_view self.now.facility.book.words.now) self.now.facility.f self.now.service.number period.number filed.entry.offer.now)) }
        ensures bound { drawn result ≤ 17 }
    {
        let Some(filing) = self.filing_inside(period, filed.reason) else {
            return Ok(());
        };
        let old = self.before(period);
        let new = self.afterwards(period, filed);
        self.facility.check_gate(filing, old, new)
    }

    // ---- a standing offer over a held one

    // 17 of a standing offer over the held one. Before closure, where most are filed, no window and no pair is read.
    #[tactic(auto, using(crate::proofs::Stages::open_draws_none), unfolding(offer_rules::specs::Offer::pairs))]
    fn check_standing_gate(
        &self,
        slot: Slot,
        held: Cell<'_>,
        filed: Passed<'_>,
    ) -> Result<(), Refusal>
        ensures number { drawn result ≡ gate_number (to_nat (word self.now.facility.book.words.now clock_place)) (grounds (book_view self.now.facility.book.words.now) self.now.facility.f) self.now.service.number (next_period (to_nat (word self.now.facility.book.words.now clock_place)) slot.number) filed.entry.reason (pairs (held_by held.entry).offer) (pairs filed.entry.offer.now) }
        ensures bound { drawn result ≤ 17 }
    {
        let next = self.facility.book.next_period(slot);
        let Some(filing) = self.filing_inside(next, filed.reason) else {
            return Ok(());
        };
        let words = held.pairs();
        let old = Some(Held { words });
        let words = filed.pairs();
        let new = Some(Offer::Filed(Filed { words }));
        self.facility.check_gate(filing, old, new)
    }

    // 17, then 18 where it is equal to the held one. "A first one always passes the gate."
    #[tactic(auto, using(layout::proofs::Chains::passed_first, layout::proofs::Chains::refused_first, layout::proofs::Chains::draw_most), unfolding(book_rules::specs::Refusals::revision_number, book_rules::specs::Refusals::over_held))]
    fn check_revision(&self, slot: Slot, filed: Passed<'_>) -> Result<(), Refusal>
        ensures number { drawn result ≡ revision_number (to_nat (word self.now.facility.book.words.now clock_place)) (grounds (book_view self.now.facility.book.words.now) self.now.facility.f) self.now.service.number slot.number filed.entry.reason ((book_view self.now.facility.book.words.now).standing self.now.facility.f self.now.service.number slot.number) filed.entry.offer.now }
        ensures bound { drawn result ≤ 18 }
    {
        let Some(held) = self.cells().held_standing(slot) else {
            return Ok(());
        };
        self.check_standing_gate(slot, held, filed)?;
        refuse_if(held.is_same_offer(filed.offer), Refusal::Duplicate)
    }

    // 11 to 18 of a standing offer that is admitted.
    #[tactic(auto, using(layout::proofs::Chains::passed_first, layout::proofs::Chains::refused_first), unfolding(book_rules::specs::Refusals::admitted_standing, book_rules::specs::Book::book_view))]
    pub fn check_standing(
        &self,
        slot: Slot,
        reason: u8,
        offer: &[i32; offer::WORDS],
    ) -> Result<(), Refusal>
        requires { UsesFive self.now.service.number offer.now }
        ensures number { drawn result ≡ admitted_standing (book_view self.now.facility.book.words.now) self.now.facility.f self.now.service.number slot.number reason offer.now }
        ensures bound { drawn result ≤ 18 }
    {
        let filed = self.check_offer(reason, offer)?;
        self.check_revision(slot, filed)
    }
}
