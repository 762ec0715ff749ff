// What each kind of facility may do, one row for each, as in offer_rules (specs/Kinds): read by 5, 7, 8, 9, 15 and 17.
#![tactic(auto)]

ghost use Rattle.std.specs.Prelude.{◌≡◌};
ghost use Rattle.offer_rules.specs.Kinds.{kind_row, is_in, is_kind, may_offer, admits};
ghost use Rattle.kinds.specs.Meaning.{kind_in, range_of, row_of};

use layout::Refusal;

// "Facility kinds: 1 generation, 2 load"; "A cross-border link becomes facility kind 3".
#[derive(Clone, Copy, Debug, PartialEq, Eq)]
pub enum Kind {
    Generation = 1,
    Load = 2,
    Link = 3,
}

// 5 of any other word.
impl TryFrom<i32> for Kind {
    type Error = Refusal;

    ghost try_from_gives = { λ word r. r ≡ kind_in word };

    fn try_from(word: i32) -> Result<Kind, Refusal> {
        match word {
            1 => Ok(Kind::Generation),
            2 => Ok(Kind::Load),
            3 => Ok(Kind::Link),
            _ => Err(Refusal::NoKind),
        }
    }
}

// From first to last; copied, which std's RangeInclusive, an iterator, isn't. It is over bytes, by the rule's `is_in`; `gate::Window` over words, by its `covers`.
#[derive(Clone, Copy, Debug, PartialEq, Eq)]
pub struct Range {
    pub first: u8,
    pub last: u8,
}

impl Range {
    pub fn contains(self, n: u8) -> bool
        ensures { result ≡ is_in (range_of self) n }
    {
        (self.first..=self.last).contains(&n)
    }
}

#[derive(Clone, Copy, Debug, PartialEq, Eq)]
struct Row {
    offers: Range,
    marks: Range,
    reasons: Range,
    longest_outage: i32,
    proportion_tested: bool,
}

// The row of a facility's word W0.
#[tactic(auto, unfolding(offer_rules::specs::Kinds::kind_row))]
fn kind_row(word: i32) -> Row
    ensures { row_of (is_kind word) result ≡ kind_row word }
{
    match Kind::try_from(word) {
        Ok(Kind::Generation) => Row {
            offers: Range { first: 0, last: 4 },
            marks: Range { first: 0, last: 4 },
            reasons: Range { first: 1, last: 5 },
            longest_outage: 3,
            proportion_tested: true,
        },
        Ok(Kind::Load) => Row {
            offers: Range { first: 0, last: 4 },
            marks: Range { first: 1, last: 3 },
            reasons: Range { first: 3, last: 6 },
            longest_outage: 48,
            proportion_tested: false,
        },
        Ok(Kind::Link) => Row {
            offers: Range { first: 0, last: 0 },
            marks: Range { first: 0, last: 0 },
            reasons: Range { first: 3, last: 5 }, // "1, 2 and 6 are not"
            longest_outage: 0, // and not None: no count is from 1 to 0
            proportion_tested: false,
        },
        // no kind: what is asked of any kind; calls draw 5 of it, or in call 2 the kind's own 8
        Err(_) => Row {
            offers: Range { first: 0, last: 4 },
            marks: Range { first: 1, last: 0 }, // and not None: no service is from 1 to 0
            reasons: Range { first: 3, last: 5 },
            longest_outage: 3,
            proportion_tested: false,
        },
    }
}

// A column each, under the name of the rule's word that its callers' contracts cite; of a word and not of a Kind: the rule has a row for an unknown one too.

// 5 and 8.
#[tactic(auto, unfolding(offer_rules::specs::Kinds::kind_row))]
pub fn is_kind(kind: i32) -> bool
    ensures { result ≡ is_kind kind }
{
    Kind::try_from(kind).is_ok()
}

// 9.
pub fn may_offer(kind: i32, service: u8) -> bool
    ensures { result ≡ may_offer kind service }
{
    kind_row(kind).offers.contains(service)
}

// 17.
pub fn admits(kind: i32, reason: u8) -> bool
    ensures { result ≡ admits kind reason }
{
    kind_row(kind).reasons.contains(reason)
}

// 8: the services for which it may be registered.
pub fn marks(kind: i32) -> Range
    ensures { range_of result ≡ (kind_row kind).marks }
{
    kind_row(kind).marks
}

// 7: its most periods; 0 where it has no outages.
pub fn longest_outage(kind: i32) -> i32
    ensures { result ≡ (kind_row kind).longest_outage }
{
    kind_row(kind).longest_outage
}

// 15.
pub fn is_proportion_tested(kind: i32) -> bool
    ensures { result ≡ (kind_row kind).proportion_tested }
{
    kind_row(kind).proportion_tested
}
