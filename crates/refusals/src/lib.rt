// Document 01, "Who draws which number": 5 to 9, from values that the book hands over.
// A facility's capability is an array of 17 words W0 to W16: it is read where it stands in the book, or as a record has sent it, and layout names its places.
// A bound stands beside a number's equation for callers that don't unfold the rule.
// Narrowing stays `as`, proved to lose nothing: a `try_from` would be tested as it runs.
#![tactic(auto)]

ghost use Rattle.std.specs.Prelude.{◌≡◌, not, ◌&&◌, ◌||◌, ◌≤◌};
ghost use Rattle.offer_rules.specs.Numbers.{to_nat};
ghost use Rattle.offer_rules.specs.Kinds.{is_in};
ghost use Rattle.layout.specs.Refusal.{drawn};
ghost use Rattle.kinds.specs.Meaning.{range_of};
ghost use Rattle.book_rules.specs.Refusals.{facility_number, clock_number, outage_number, notice_number, withdrawal_number, is_registered, kind_refused, maxima_refused, any_mark_astray, marks_refused, capability_number, registration_number};
ghost use Rattle.book_rules.specs.Book.{outage_words};

use kinds::{Kind, Range, is_kind, longest_outage, marks, may_offer};
use layout::{Minute, Refusal, Service, facility, fields, offer, refuse_if, service, time};
use units::{any_beyond, is_beyond, nat};

// Thousandths: "W9–W11 outside 0–1,000"
const MOST_PROPORTION: i32 = 1000;

// ---- 5: the facility's kind

// "facility has kind neither 1 nor 2 in the book", nor 3. The Kind isn't handed on: what is asked of it later is asked of the word, where it stands.
#[tactic(auto, unfolding(book_rules::specs::Refusals::facility_number, book_rules::specs::Refusals::has_kind, offer_rules::specs::Kinds::kind_row, offer_rules::specs::Numbers::draw))]
pub fn check_kind(capability: &[i32; facility::CAPABILITY]) -> Result<(), Refusal>
    ensures number { drawn result ≡ facility_number capability.now }
    ensures bound { drawn result ≤ 5 }
{
    Kind::try_from(capability[facility::KIND]).map(|_| ())
}

// ---- 6: the clock

// "A below now or above 1,000,000,000"
#[tactic(auto, unfolding(book_rules::specs::Refusals::clock_number))]
pub fn check_clock(clock: Minute, minute: i32) -> Result<(), Refusal>
    ensures number { drawn result ≡ clock_number clock.number minute }
    ensures bound { drawn result ≤ 6 }
{
    let earliest = clock.number as i32;
    refuse_if(
        is_beyond(earliest, time::LAST_MINUTE, minute),
        Refusal::Clock,
    )
}

// ---- 7: outages, notices and withdrawals

// "outage: not 0 ≤ m ≤ now, or n outside 1–3 (load 1–48)"; a link's always. What passed stays two words, of which the window is made where it is filed.
pub fn check_outage(
    clock: Minute,
    capability: &[i32; facility::CAPABILITY],
    minute: i32,
    count: i32,
) -> Result<(), Refusal>
    ensures number { drawn result ≡ outage_number clock.number capability.now minute count }
    ensures bound { drawn result ≤ 7 }
    ensures passed { drawn result ≡ 0 → to_nat count ≤ 48 }
{
    let longest = longest_outage(capability[facility::KIND]);
    let minute_beyond = is_beyond(0, clock.number as i32, minute);
    let count_beyond = is_beyond(1, longest, count);
    refuse_if(minute_beyond | count_beyond, Refusal::Notice)
}

// "Its window is m div 30 + 1 to m div 30 + n." Two words, as the book stores them.
#[tactic(auto, unfolding(book_rules::specs::Book::outage_words))]
pub fn outage_window(minute: i32, count: i32) -> [i32; 2]
    requires { to_nat count ≤ 48 }
    ensures { result ≡ outage_words (to_nat minute) (to_nat count) }
{
    let before = nat(minute) / time::PERIOD_MINUTES;
    [(before + 1) as i32, (before + nat(count)) as i32]
}

// "notice: reason not 3–5, or not 0 ≤ A ≤ B ≤ 40,000,000"
#[tactic(auto, unfolding(offer_rules::specs::Numbers::draw))]
pub fn check_notice(kind: u8, first: i32, last: i32) -> Result<(), Refusal>
    ensures number { drawn result ≡ notice_number kind first last }
    ensures bound { drawn result ≤ 7 }
    ensures passed { drawn result ≡ 0 → (3 ≤ kind) × (kind ≤ 5) }
{
    let is_kind = (fields::ENERGY_SURPLUS..=fields::SYSTEM_STATUS).contains(&kind);
    let is_window = ((0 <= first) & (first <= last)) & (last <= time::LAST_NOTICE_PERIOD);
    refuse_if(!is_kind | !is_window, Refusal::Notice)
}

// "withdrawal: reason not 5"
#[tactic(auto, unfolding(book_rules::specs::Refusals::withdrawal_number))]
pub fn check_withdrawal(kind: u8) -> Result<(), Refusal>
    ensures number { drawn result ≡ withdrawal_number kind }
    ensures bound { drawn result ≤ 7 }
{
    refuse_if(kind != fields::SYSTEM_STATUS, Refusal::Notice)
}

// ---- 8: standing capability data

// "kind not 1 or 2 or unlike a held 1 or 2"; 3 as these.
#[tactic(auto, unfolding(book_rules::specs::Refusals::has_kind, book_rules::specs::Refusals::kind_refused))]
pub fn is_kind_refused(held: &[i32; facility::CAPABILITY], kind: i32) -> bool
    ensures { result ≡ kind_refused held.now kind }
{
    let held_kind = held[facility::KIND];
    !is_kind(kind) | (is_kind(held_kind) & (held_kind != kind))
}

// "W1–W6 outside 0–99,999; W7, W8 outside 0–9,999; W9–W11 outside 0–1,000"
fn is_maximum_refused(sent: &[i32; facility::CAPABILITY]) -> bool
    ensures { result ≡ maxima_refused sent.now }
{
    let maximum = any_beyond(
        &sent[facility::MAX_GENERATION..facility::MAX_RAMP_UP],
        0,
        offer::MOST_QUANTITY,
    );
    let ramp = any_beyond(
        &sent[facility::MAX_RAMP_UP..facility::MAX_PROPORTION],
        0,
        offer::MOST_RAMP,
    );
    let proportion = any_beyond(
        &sent[facility::MAX_PROPORTION..facility::REGISTERED],
        0,
        MOST_PROPORTION,
    );
    (maximum | ramp) | proportion
}

// The mark for a service is 1.
fn is_registered(capability: &[i32; facility::CAPABILITY], service: Service) -> bool
    ensures { result ≡ is_registered capability.now service.number }
{
    capability[facility::REGISTERED + service.place()] == 1
}

// A mark that is set and that the kind may not have.
fn is_mark_astray(sent: &[i32; facility::CAPABILITY], allowed: Range, service: Service) -> bool
    ensures { result ≡ (is_registered sent.now service.number && not (is_in (range_of allowed) service.number)) }
{
    is_registered(sent, service) & !allowed.contains(service.number)
}

// "load with mark 0 or 4 set"; of a link "mark 0 only".
// Asked of all without a branch, by a fold and not `any`.
// `ENERGY..=REGULATION` was tried: std has no law of the items that such a range gives, and the proof didn't close.
fn any_mark_astray(sent: &[i32; facility::CAPABILITY]) -> bool
    ensures { result ≡ any_mark_astray sent.now 5 }
{
    let allowed = marks(sent[facility::KIND]);
    (service::ENERGY..service::REGULATION + 1).fold(
        false,
        |any, number|
            requires { number ≤ 4 }
        { any | is_mark_astray(sent, allowed, Service { number }) },
    )
}

// "a mark not 0 or 1; .."
fn is_mark_refused(sent: &[i32; facility::CAPABILITY]) -> bool
    ensures { result ≡ marks_refused sent.now }
{
    any_beyond(&sent[facility::REGISTERED..facility::CAPABILITY], 0, 1) | any_mark_astray(sent)
}

#[tactic(auto, unfolding(book_rules::specs::Refusals::capability_number))]
pub fn check_capability(
    held: &[i32; facility::CAPABILITY],
    sent: &[i32; facility::CAPABILITY],
) -> Result<(), Refusal>
    ensures number { drawn result ≡ capability_number held.now sent.now }
    ensures bound { drawn result ≤ 8 }
{
    let kind = is_kind_refused(held, sent[facility::KIND]);
    let maximum = is_maximum_refused(sent);
    let mark = is_mark_refused(sent);
    refuse_if((kind | maximum) | mark, Refusal::Capability)
}

// ---- 9: registration

// "mark for the service not 1", or a service that the kind may not offer, whatever its marks.
#[tactic(auto, unfolding(book_rules::specs::Refusals::registration_number))]
pub fn check_registration(
    capability: &[i32; facility::CAPABILITY],
    service: Service,
) -> Result<(), Refusal>
    ensures number { drawn result ≡ registration_number capability.now service.number }
    ensures bound { drawn result ≤ 9 }
{
    let registered = is_registered(capability, service);
    let offered = may_offer(capability[facility::KIND], service.number);
    refuse_if(!registered | !offered, Refusal::NotRegistered)
}
