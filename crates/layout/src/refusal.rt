// Document 01, "Who draws which number", and document 02's number beside them: what a call is refused for.
ghost use Rattle.std.specs.Prelude.{◌≡◌, ◌≤◌};
ghost use Rattle.offer_rules.specs.Numbers.{draw};
ghost use Rattle.layout.specs.Refusal.{number, drawn};

#[derive(Clone, Copy, Debug, PartialEq, Eq)]
pub enum Refusal {
    // "fewer than 64 words, mark or version wrong, F not 1 to 64, S not 1 or 5, fewer than N words, or clock outside 0 to 1,000,000,000"
    BookUnusable = 1,

    // "not 112 bytes, or mark, version or call wrong"
    NotARecord = 2,

    // "facility ≥ F or service ≥ S, where used"
    NotInBook = 3,

    // "an unused byte not zero"
    UnusedByte = 4,

    // "facility has kind neither 1 nor 2 in the book", nor 3
    NoKind = 5,

    // "A below now or above 1,000,000,000"
    Clock = 6,

    // "outage: ..; notice: ..; withdrawal: .."
    Notice = 7,

    // "capability: .."
    Capability = 8,

    // "mark for the service not 1", or a link's offer for another than energy
    NotRegistered = 9,

    // "slot outside 0–335; P begun (30·P ≤ now) or P ≥ 48·(d + 7)"
    Period = 10,

    // "reason above 6, quantity outside 0–99,999, price outside its limits"
    OutOfRange = 11,

    // "blank pair with a price", or one that "stands before a non-blank one"
    Blank = 12,

    // "prices of non-blank pairs not strictly rising"
    PricesDontRise = 13,

    // "energy ramp outside 0 to its maximum"; "also covers a ramp above 9,999"
    Ramp = 14,

    // "generation reserve: proportion 0 or above its maximum"
    Proportion = 15,

    // "total above generation or combined maximum (energy), or above the service's own"
    AboveCapacity = 16,

    // "gate"
    GateClosed = 17,

    // "standing offer equal to the held one"
    Duplicate = 18,

    // "nothing in force"
    NothingInForce = 19,

    // "opening: .."
    Opening = 20,

    // "the date doesn't exist, the year is outside 2024–2099, the period is outside 1–48, or P is below 0 or beyond the last date's"
    Date = 21,
}

// Of 32 bits, as C gets it.
impl From<Refusal> for u32 {
    ghost from_gives = { λ refusal n. (n ≡ number refusal) × (n ≤ 21) };

    fn from(refusal: Refusal) -> u32 {
        refusal as u32 // its discriminant
    }
}

// Refused where a test applies: what is known of it is one condition, so no value could say more than the flag.
#[tactic(auto, unfolding(offer_rules::specs::Numbers::draw))]
pub fn refuse_if(applies: bool, refusal: Refusal) -> Result<(), Refusal>
    ensures number { drawn result ≡ draw applies (number refusal) }
    ensures bound { drawn result ≤ number refusal }
{
    if applies { Err(refusal) } else { Ok(()) }
}

// The number that a test or a call returns: 0 where it isn't refused. No `From`, as neither type is of this crate.
pub fn drawn(outcome: Result<(), Refusal>) -> u32
    ensures { (result ≡ drawn outcome) × (result ≤ 21) }
{
    match outcome {
        Ok(()) => 0,
        Err(refusal) => u32::from(refusal),
    }
}
