// Gate closure, refusal 17: prices compared tenth by tenth, and the reasons.
#![tactic(auto)]

ghost use Rattle.std.specs.Prelude.{◌≡◌, true, not, ◌&&◌, ◌≤◌, ◌<◌, ltb, length, drop};
ghost use Rattle.offer_rules.specs.Numbers.{eq_z};
ghost use Rattle.offer_rules.specs.Kinds.{admits};
ghost use Rattle.offer_rules.specs.Offer.{pairs_in, all_blank, filled_part, BlanksAfter};
ghost use Rattle.offer_rules.specs.Gate.{tenths_of, total_tenths, same_prices, covers, is_open, admits_service, period_covered, total_moved, is_excepted};
ghost use Rattle.units.specs.Typed.{pair_of, pairs_of};
ghost use Rattle.gate.specs.Differing.{first_differing, tenth_or_none};
ghost use Rattle.gate.specs.Meaning.{window_of, grounds_of, words_held, words_of};

mod lent;

use kinds::admits;
use layout::{Minute, service, time};
pub use lent::{Filed, Held, Offer};
use units::{Pair, nat, pair_words};

// The periods of an outage or a notice. No `kinds::Range`: the rule has one word for 32-bit words, `covers`, and one for bytes, `is_in`.
#[derive(Clone, Copy, Debug, PartialEq, Eq)]
pub struct Window {
    pub first: i32,
    pub last: i32,
}

// What a reason is held against: the facility's kind and outage window, and the three notices.
#[derive(Clone, Copy, Debug, PartialEq, Eq)]
pub struct Grounds {
    // A word, as `admits` takes it.
    pub kind: i32,
    pub outage: Window,
    pub surplus: Window,
    pub shortfall: Window,
    pub status: Window,
}

// A filing inside gate closure: the service and the period of its offer, and the reason that it gives.
// Of any u8, and any period below 2³¹: layout's Service and Period would ask more of callers.
#[derive(Clone, Copy, Debug, PartialEq, Eq)]
pub struct Filing {
    pub service: u8,
    pub period: u64,
    pub reason: u8,
    pub ghost period_fits: { period < 2147483648 },
}

impl Window {
    #[tactic(auto, unfolding(offer_rules::specs::Gate::covers))]
    fn covers(self, filing: Filing) -> bool
        ensures { result ≡ covers (window_of self) filing.period }
    {
        // `as`, proved to lose nothing: a `try_from` would be tested as it runs.
        (self.first..=self.last).contains(&(filing.period as i32))
    }
}

// ---- how far an offer is walked

// The pairs of an offer that are walked: its first ones, after which it has blanks alone.
#[derive(Clone, Copy, Debug, PartialEq, Eq)]
struct Walk<'a> {
    pairs: &'a [[i32; 2]],
    ghost at_most_ten: { length pairs.now ≤ 10 },
}

// How many pairs stand before the first blank.
fn filled_count(pairs: &[[i32; 2]]) -> usize
    ensures filled { result ≡ length (filled_part (pairs_of pairs.now)) }
    ensures most { result ≤ length pairs.now }
{
    pairs
        .iter()
        .position(|words| Pair::from(words).is_blank())
        .unwrap_or(pairs.len())
}

// How many pairs there are up to the last that isn't blank.
#[tactic(auto, using(crate::proofs::Blanks::blank_from))]
fn count_to_last(pairs: &[[i32; 2]]) -> usize
    ensures most { result ≤ length pairs.now }
    ensures rest { all_blank (pairs_of (drop result pairs.now)) ≡ true }
{
    pairs
        .iter()
        .rposition(|words| !Pair::from(words).is_blank())
        .map_or(0, |last| last + 1)
}

impl<'a> Walk<'a> {
    // Of a filed offer the pairs before its first blank, since "all non-blank pairs come first".
    #[tactic(auto, using(crate::proofs::Blanks::part_lent, offer_rules::proofs::Blanks::none_before))]
    fn filed(filed: Filed<'a>) -> Walk<'a>
        ensures { BlanksAfter (pairs_of result.pairs.now) (pairs_in filed.entry.words.now) }
    {
        let words = filed.words;
        let pairs = pair_words(words);
        let end = filled_count(pairs);
        Walk {
            pairs: &pairs[..end],
        }
    }

    // A held offer "is still walked to its last pair", whatever blanks stand before that; those after it hold no tenths.
    #[tactic(auto, using(crate::proofs::Blanks::blanks_from))]
    fn held(held: Held<'a>) -> Walk<'a>
        ensures { BlanksAfter (pairs_of result.pairs.now) (pairs_in held.entry.words.now) }
    {
        let pairs = pair_words(held.words);
        let end = count_to_last(pairs);
        Walk {
            pairs: &pairs[..end],
        }
    }

    // No offer has no pairs.
    #[tactic(auto, using(offer_rules::proofs::Blanks::whole), unfolding(offer_rules::specs::Offer::pairs_in))]
    fn of(offer: Option<Offer<'a>>) -> Walk<'a>
        ensures { BlanksAfter (pairs_of result.pairs.now) (pairs_in (words_of offer.entry)) }
    {
        match offer {
            Some(Offer::Filed(filed)) => Walk::filed(filed),
            Some(Offer::Held(held)) => Walk::held(held),
            None => Walk { pairs: &[] },
        }
    }
}

// ---- tenth by tenth

// "a quantity below 0, which only a damaged book holds, counts as 0"
fn tenths_of(pair: Pair) -> u64
    ensures { (result ≡ tenths_of (pair_of pair)) × (result < 2147483648) }
{
    nat(pair.quantity.0)
}

// Two pairs differ where both have tenths left, a and b, at two prices: a blank pair's price is never compared.
fn differ(x: Pair, a: u64, y: Pair, b: u64) -> bool
    ensures { result ≡ ((ltb 0 a && ltb 0 b) && not (eq_z x.price.0 y.price.0)) }
{
    0 < a && 0 < b && x.price != y.price
}

impl Walk<'_> {
    fn total_tenths(self) -> u64
        ensures { result ≡ total_tenths (pairs_of self.entry.pairs.now) }
    {
        self.pairs
            .iter()
            .fold(0, |total, words| total + tenths_of(Pair::from(words)))
    }

    // The lowest n from 1 to the smaller total whose tenth differs in price.
    // A step passes the pair with fewer tenths left, a of old's or b of new's, or both where they are as many: an offer that only adds to old is walked through
    // in as many steps as it has pairs. The tenth itself, where its caller asks if there is one: of it the proof says that each step keeps it.
    #[tactic(auto, using(crate::proofs::Steps::start_is_whole, crate::proofs::Steps::differing, crate::proofs::Steps::old_ended, crate::proofs::Steps::new_ended))]
    fn first_differing_tenth(self, new: Walk) -> Option<u64>
        ensures { result ≡ tenth_or_none (first_differing (pairs_of self.entry.pairs.now) (pairs_of new.entry.pairs.now)) }
    {
        // The pairs left of each, and how many tenths of the first are passed: no struct, as the two of one would be taken apart at each step.
        let (mut old, mut old_used) = (self.pairs, 0);
        let (mut new, mut new_used) = (new.pairs, 0);
        let mut passed = 0;
        // A `while let`: two slices that shrink at different steps, which no iterator of std's does.
        while let ([x, ..], [y, ..]) = (old, new) {
            let x = Pair::from(x);
            let y = Pair::from(y);
            let a = tenths_of(x).saturating_sub(old_used);
            let b = tenths_of(y).saturating_sub(new_used);
            if differ(x, a, y, b) {
                return Some(passed + 1);
            }
            if a == b {
                (old, old_used) = (&old[1..], 0);
                (new, new_used) = (&new[1..], 0);
            } else if a < b {
                (old, old_used) = (&old[1..], 0);
                new_used += a;
            } else {
                old_used += b;
                (new, new_used) = (&new[1..], 0);
            }
            passed += a.min(b);
        }
        None
    }

    // "for every n from 1 to the smaller total, the n-th tenth .. has the same price in old and new"
    #[tactic(auto, using(crate::proofs::Runs::found_where_prices_differ))]
    fn same_prices(self, new: Walk) -> bool
        ensures { result ≡ same_prices (pairs_of self.entry.pairs.now) (pairs_of new.entry.pairs.now) }
    {
        self.first_differing_tenth(new).is_none()
    }
}

// ---- the reasons

// "3 service 0"
#[tactic(auto, unfolding(offer_rules::specs::Gate::admits_service))]
fn admits_service(service: u8, reason: u8) -> bool
    ensures { result ≡ admits_service service reason }
{
    match reason {
        3 => service == service::ENERGY,
        0..=2 | 4..=255 => true,
    }
}

// What a reason asks of the totals of old and new, for which every pair that is walked is read.
#[tactic(auto, unfolding(offer_rules::specs::Gate::total_moved))]
fn is_total_moved(reason: u8, old: Walk, new: Walk) -> bool
    ensures { result ≡ total_moved reason (total_tenths (pairs_of old.entry.pairs.now)) (total_tenths (pairs_of new.entry.pairs.now)) }
{
    match reason {
        3 => new.total_tenths() < old.total_tenths(),
        4 | 5 => old.total_tenths() < new.total_tenths(),
        0..=2 | 6..=255 => true,
    }
}

// "A variation is open when 30·P − now is 65 or more." Of any period below 2³¹, as of a filing: layout's Period would ask more of callers.
pub fn is_before_closure(clock: Minute, period: u64) -> bool
    requires { period < 2147483648 }
    ensures { result ≡ is_open clock.number period }
{
    clock.number + time::GATE_CLOSURE_MINUTES <= time::PERIOD_MINUTES * period
}

impl Grounds {
    // What a reason asks of the period.
    #[tactic(auto, unfolding(offer_rules::specs::Gate::period_covered))]
    fn is_period_covered(self, filing: Filing) -> bool
        ensures { result ≡ period_covered (grounds_of self) filing.period filing.reason }
    {
        let reason = filing.reason;
        match reason {
            2 | 6 => self.outage.covers(filing),
            3 => self.surplus.covers(filing),
            4 => self.shortfall.covers(filing),
            5 => self.status.covers(filing),
            0 | 1 | 7..=255 => true,
        }
    }

    // "Inside that it needs a reason": what the one given asks of the kind, the service and the period.
    fn is_admitted(self, filing: Filing) -> bool
        ensures { result ≡ ((admits self.kind filing.reason && admits_service filing.service filing.reason) && period_covered (grounds_of self) filing.period filing.reason) }
    {
        admits(self.kind, filing.reason)
            && admits_service(filing.service, filing.reason)
            && self.is_period_covered(filing)
    }
}

// Whether a filing inside gate closure is excepted, of a variation and of a standing offer over a held one. Old is the offer in force, if there is one. New is the
// filed one, or where a variation is taken back a held one, or none.
#[tactic(auto, using(crate::proofs::Admitted::not_admitted))]
pub fn is_excepted(g: Grounds, filing: Filing, old: Option<Held>, new: Option<Offer>) -> bool
    ensures { result ≡ is_excepted (grounds_of g) filing.service filing.period filing.reason (pairs_in (words_held old.entry)) (pairs_in (words_of new.entry)) }
{
    if !g.is_admitted(filing) {
        return false;
    }
    let before = Walk::of(old.map(Offer::Held));
    let after = Walk::of(new);
    is_total_moved(filing.reason, before, after) && before.same_prices(after)
}
