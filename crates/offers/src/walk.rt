// What a walk through an offer's pairs finds up to the first blank.
ghost use Rattle.std.specs.Prelude.{◌≡◌, ◌+◌, ◌*◌, ◌≤◌, nat_abs, length, IfOk};
ghost use Rattle.offers.specs.PairTests.{still_rises, with_filled, found_from};
ghost use Rattle.units.specs.Typed.{pairs_of};

use crate::limits::PriceLimits;
use crate::sum::Sum;
use layout::Refusal;
use units::{Pair, Price};

// What the pairs before the first blank, or up to some place, have shown: `filled` counts them, and `last` is the price of the last.
// A flag beside `last`: after a fall the walk goes on, as 11 and 12 come before 13, and holds each price against the last all the same.
#[derive(Clone, Copy, Debug, PartialEq, Eq)]
pub struct Findings {
    pub rises: bool,
    pub last: Option<Price>,
    pub total: Sum,
    pub filled: usize,
}

impl Findings {
    pub const NONE_YET: Findings = Findings {
        rises: true,
        last: None,
        total: Sum(0),
        filled: 0,
    };

    // 13 "prices of non-blank pairs not strictly rising"
    #[tactic(auto, unfolding(crate::specs::PairTests::still_rises))]
    fn still_rises(self, price: Price) -> bool
        ensures { result ≡ still_rises self.rises self.last price }
    {
        self.rises & self.last.is_none_or(|last| last < price)
    }

    // One pair more.
    #[tactic(auto, unfolding(crate::specs::PairTests::with_filled))]
    fn with_filled(self, pair: Pair) -> Findings
        requires { (nat_abs self.total.0 ≤ 4611686018427387904) × (self.filled ≤ 10) }
        ensures { result ≡ with_filled self pair.price pair.quantity }
    {
        Findings {
            rises: self.still_rises(pair.price),
            last: Some(pair.price),
            total: self.total + pair.quantity,
            filled: self.filled + 1,
        }
    }
}

// Some pairs, after findings `start` of those before them. The walk ends at the first that is blank, and at the first that 11 refuses: no number
// below 11 is left to be drawn from pairs. Inlined, both walks are over five pairs each, and nothing is handed over in memory.
#[inline(always)]
pub fn walk(limits: PriceLimits, start: Findings, pairs: &[[i32; 2]]) -> Result<Findings, Refusal>
    requires counted { start.filled + length pairs.now ≤ 10 }
    requires sized { nat_abs start.total.0 ≤ start.filled * 2147483648 }
    ensures found { result ≡ found_from limits.lowest limits.highest start (pairs_of pairs.now) }
    ensures within { IfOk result (λ f. (f.filled ≤ start.filled + length pairs.now) × (nat_abs f.total.0 ≤ f.filled * 2147483648)) }
{
    let mut f = start;
    for words in pairs {
        let pair = Pair::from(words);
        if limits.is_out_of_range(pair) {
            return Err(Refusal::OutOfRange);
        }
        if pair.is_blank() {
            return Ok(f);
        }
        f = f.with_filled(pair);
    }
    Ok(f)
}
