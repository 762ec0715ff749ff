// The seven calls that write (1 to 7), on a book that passes 1 by a record that passes 2, 3 and 4.
// Each is refused and writes nothing, or writes what it files. The book is the `&mut [i32]` that document 01 names, so what has been tested of it is asked for, in one word a call.
#![tactic(auto)]

ghost use Rattle.std.specs.Prelude.{◌≡◌, true};
ghost use Rattle.offer_rules.specs.Numbers.{to_nat, word};
ghost use Rattle.offer_rules.specs.Time.{slot_refused, period_refused};
ghost use Rattle.layout.specs.Refusal.{drawn};
ghost use Rattle.book_rules.specs.Record.{call_of, period_word};
ghost use Rattle.book_rules.specs.Words.{clock_place, ramps_fit};
ghost use Rattle.book_rules.specs.Force.{plain};
ghost use Rattle.book_rules.specs.Book.{file_standing, file_variation, book_answer, book_after};
ghost use Rattle.cells.specs.Meaning.{Sized};
ghost use Rattle.judging.specs.Usable.{Usable};
ghost use Rattle.judging.specs.Tested as tested;

use cells::{CellPlace, Filing, Half, Place, store_offer, store_words};
use judging::{Book, Facility, Series};
use layout::{
    Minute, Period, Refusal, Slot, Stamp, facility, fields, head, offer, refuse_if, time,
};
use offers::Passed;
use record::{Record, capability_in, period_word, read_offer, word_at};

// 6; files the minute.
pub fn clock_call(book: &mut [i32], bytes: &Record) -> Result<(), Refusal>
    requires { tested.Tested book.old bytes.now × (call_of bytes.now ≡ 1) }
    ensures { (plain (drawn result) ≡ book_answer book.old bytes.now) × (book.new ≡ book_after book.old bytes.now) }
{
    let minute = word_at(bytes, fields::A);
    let clock = Book { words: book }.clock();
    refusals::check_clock(clock, minute)?;
    store_words(book, head::CLOCK, &[minute]);
    Ok(())
}

// 8; files W0 to W16.
fn file_capability(book: &mut [i32], bytes: &Record) -> Result<(), Refusal>
    requires { tested.Facility book.old bytes.now 2 }
    ensures { (plain (drawn result) ≡ book_answer book.old bytes.now) × (book.new ≡ book_after book.old bytes.now) }
{
    let sent = capability_in(bytes);
    let facility = Facility::named(book, bytes);
    refusals::check_capability(facility.capability(), &sent)?;
    let at = facility.start();
    store_words(book, at, &sent);
    Ok(())
}

// The kind, which alone is held against the book, is tested before the other words are read from the bytes, which takes longer than the rest
// of such a call (docs/DECISIONS.md, "Forms and code" 7). It is tested twice: check_capability is 8 as a whole.
pub fn capability_call(book: &mut [i32], bytes: &Record) -> Result<(), Refusal>
    requires { tested.Facility book.old bytes.now 2 }
    ensures { (plain (drawn result) ≡ book_answer book.old bytes.now) × (book.new ≡ book_after book.old bytes.now) }
{
    let facility = Facility::named(book, bytes);
    let kind = word_at(bytes, fields::W0);
    refuse_if(
        refusals::is_kind_refused(facility.capability(), kind),
        Refusal::Capability,
    )?;
    file_capability(book, bytes)
}

// Files an offer in its cell.
fn file_standing(book: &mut [i32], place: Place, slot: Slot, offer: &[i32; offer::WORDS])
    requires { Usable book.old × Sized book.old place.sizes.facilities place.sizes.services × (ramps_fit offer.now ≡ true) }
    ensures { book.new ≡ file_standing book.old place.f place.s slot.number offer.now }
{
    let filing = Filing {
        stamp: Stamp::STANDING,
        minute: Book { words: book }.clock(),
        offer,
    };
    let half = Half::Standing;
    store_offer(book, CellPlace { place, half, slot }, filing);
}

// 11 to 18 of a standing offer that is admitted; files one cell.
fn stand(book: &mut [i32], bytes: &Record, slot: Slot) -> Result<(), Refusal>
    requires admitted { tested.Admitted book.old bytes.now 3 (slot_refused (period_word bytes.now)) }
    requires slot { slot.number ≡ to_nat (period_word bytes.now) }
    ensures { (plain (drawn result) ≡ book_answer book.old bytes.now) × (book.new ≡ book_after book.old bytes.now) }
{
    let mut offer = [0i32; offer::WORDS];
    read_offer(bytes, &mut offer);
    let series = Series::named(book, bytes);
    series.check_standing(slot, bytes[fields::REASON], &offer)?;
    let place = series.place();
    file_standing(book, place, slot, &offer);
    Ok(())
}

// 5, 9 and 10 are drawn before the offer is read from the bytes, which takes longer than the rest of such a call.
// Two functions, this and variation_call: a slot and a period differ in test, gate and cell.
pub fn standing_call(book: &mut [i32], bytes: &Record) -> Result<(), Refusal>
    requires { tested.Place book.old bytes.now 3 }
    ensures { (plain (drawn result) ≡ book_answer book.old bytes.now) × (book.new ≡ book_after book.old bytes.now) }
{
    let series = Series::named(book, bytes);
    let slot = series.admit_standing(period_word(bytes))?;
    stand(book, bytes, slot)
}

// Where its pairs are all blank, "Its cell becomes 24 zeros." "The slot of P is P mod 336."
fn file_variation(book: &mut [i32], place: Place, period: Period, filed: Passed<'_>)
    requires { Usable book.old × Sized book.old place.sizes.facilities place.sizes.services × (ramps_fit filed.offer.now ≡ true) }
    ensures { book.new ≡ file_variation book.old place.f place.s period.number filed.entry.offer.now }
{
    let half = Half::Variation;
    let slot = period.slot();
    let at = CellPlace { place, half, slot };
    let stamp = period.stamp();
    if filed.is_all_blank() {
        let none = [0i32; offer::WORDS];
        let filing = Filing {
            stamp: Stamp::EMPTY,
            minute: Minute { number: 0 },
            offer: &none,
        };
        return store_offer(book, at, filing);
    }
    let filing = Filing {
        stamp,
        minute: Book { words: book }.clock(),
        offer: filed.offer,
    };
    store_offer(book, at, filing);
}

// 11 to 17 of a variation that is admitted; files one cell.
fn vary(book: &mut [i32], bytes: &Record, period: Period) -> Result<(), Refusal>
    requires admitted { tested.Admitted book.old bytes.now 4 (period_refused (to_nat (word book.old clock_place)) (period_word bytes.now)) }
    requires period { period.number ≡ to_nat (period_word bytes.now) }
    ensures { (plain (drawn result) ≡ book_answer book.old bytes.now) × (book.new ≡ book_after book.old bytes.now) }
{
    let mut offer = [0i32; offer::WORDS];
    read_offer(bytes, &mut offer);
    let series = Series::named(book, bytes);
    let filed = series.check_offer(bytes[fields::REASON], &offer)?;
    series.check_variation_gate(period, filed)?;
    let place = series.place();
    file_variation(book, place, period, filed);
    Ok(())
}

// 5, 9 and 10 before the offer is read, as of a standing offer.
pub fn variation_call(book: &mut [i32], bytes: &Record) -> Result<(), Refusal>
    requires { tested.Place book.old bytes.now 4 }
    ensures { (plain (drawn result) ≡ book_answer book.old bytes.now) × (book.new ≡ book_after book.old bytes.now) }
{
    let series = Series::named(book, bytes);
    let period = series.admit_variation(period_word(bytes))?;
    vary(book, bytes, period)
}

// 5 and 7; files the facility's window.
pub fn outage_call(book: &mut [i32], bytes: &Record) -> Result<(), Refusal>
    requires { tested.Facility book.old bytes.now 5 }
    ensures { (plain (drawn result) ≡ book_answer book.old bytes.now) × (book.new ≡ book_after book.old bytes.now) }
{
    let minute = word_at(bytes, fields::A);
    let count = word_at(bytes, fields::B);
    let facility = Facility::named(book, bytes);
    facility.check_kind()?;
    refusals::check_outage(facility.book.clock(), facility.capability(), minute, count)?;
    let at = facility.start() + facility::OUTAGE;
    store_words(book, at, &refusals::outage_window(minute, count));
    Ok(())
}

// 7; files the window of its kind. "5–10 first and last of notices 3, 4, 5"
pub fn notice_call(book: &mut [i32], bytes: &Record) -> Result<(), Refusal>
    requires { tested.Tested book.old bytes.now × (call_of bytes.now ≡ 6) }
    ensures { (plain (drawn result) ≡ book_answer book.old bytes.now) × (book.new ≡ book_after book.old bytes.now) }
{
    let kind = bytes[fields::REASON];
    let first = word_at(bytes, fields::A);
    let last = word_at(bytes, fields::B);
    refusals::check_notice(kind, first, last)?;
    // By arithmetic, as the rule's `notice_place`: two words a kind, from kind 3 on.
    let at = head::ENERGY_SURPLUS + 2 * usize::from(kind - fields::ENERGY_SURPLUS);
    store_words(book, at, &[first, last]);
    Ok(())
}

// 7; "only kind 5 can be withdrawn, which sets its window to 1 to 0".
pub fn withdrawal_call(book: &mut [i32], bytes: &Record) -> Result<(), Refusal>
    requires { tested.Tested book.old bytes.now × (call_of bytes.now ≡ 7) }
    ensures { (plain (drawn result) ≡ book_answer book.old bytes.now) × (book.new ≡ book_after book.old bytes.now) }
{
    refusals::check_withdrawal(bytes[fields::REASON])?;
    store_words(book, head::SYSTEM_STATUS, &time::EMPTY_WINDOW);
    Ok(())
}
