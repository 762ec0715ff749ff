// Prices and quantities as types of their own, the pairs of an offer, signed words as counts, and tests of words.
#![tactic(auto)]

ghost use Rattle.std.specs.Prelude.{◌≡◌, ◌/◌, ◌<◌, length};
ghost use Rattle.offer_rules.specs.Numbers.{to_nat, beyond, any_beyond};
ghost use Rattle.offer_rules.specs.Offer.{is_blank, pairs_in};
ghost use Rattle.units.specs.Typed.{pair_of, pairs_of, typed};

// Whole cents per MWh.
#[derive(Clone, Copy, Debug, PartialEq, Eq, PartialOrd, Ord)]
pub struct Price(pub i32);

// Whole tenths of a MW.
#[derive(Clone, Copy, Debug, PartialEq, Eq, PartialOrd, Ord)]
pub struct Quantity(pub i32);

// "price, quantity", as two words of an offer
#[derive(Clone, Copy, Debug, PartialEq, Eq)]
pub struct Pair {
    pub price: Price,
    pub quantity: Quantity,
}

// Word by word: a copy of both would be read as one word of 64 bits.
impl From<&[i32; 2]> for Pair {
    ghost from_gives = { λ words pair. pair ≡ typed words.now };

    fn from([price, quantity]: &[i32; 2]) -> Pair {
        Pair {
            price: Price(*price),
            quantity: Quantity(*quantity),
        }
    }
}

impl Pair {
    // Neither a price nor a quantity.
    pub const EMPTY: Pair = Pair {
        price: Price(0),
        quantity: Quantity(0),
    };

    // "A pair with quantity 0 is blank"
    #[tactic(auto, unfolding(offer_rules::specs::Offer::is_blank))]
    pub fn is_blank(self) -> bool
        ensures { result ≡ is_blank (pair_of self) }
    {
        self.quantity == Quantity(0)
    }
}

// The words of an offer's pairs, two by two.
pub fn pair_words(words: &[i32]) -> &[[i32; 2]]
    ensures count { length result.now ≡ length words.now / 2 }
    ensures pairs { pairs_of result.now ≡ pairs_in words.now }
{
    words.as_chunks::<2>().0
}

// A signed word as a count: 0 where it is negative. Through `try_from` it is a branch, and an offer's walk a tenth longer.
pub fn nat(x: i32) -> u64
    ensures { (result ≡ to_nat x) × (result < 2147483648) }
{
    x.max(0) as u64
}

// Outside lo to hi, two words as in the rule's `beyond`: a range of std's isn't copied.
pub fn is_beyond(lo: i32, hi: i32, x: i32) -> bool
    ensures { result ≡ beyond lo hi x }
{
    !(lo..=hi).contains(&x)
}

// Any of the words outside lo to hi: asked of all without a branch.
pub fn any_beyond(words: &[i32], lo: i32, hi: i32) -> bool
    ensures { result ≡ any_beyond lo hi words.now 0 (length words.now) }
{
    words
        .iter()
        .fold(false, |any, x| any | is_beyond(lo, hi, *x))
}

// Words of any count, to as many.
pub fn copy_words(to: &mut [i32], from: &[i32])
    requires { length to.old ≡ length from.now }
    ensures { to.new ≡ from.now }
{
    to.copy_from_slice(from);
}

// As an array: copy_from_slice tests, each time, whether the two overlap. To a slice, as it is a part of what the caller fills.
pub fn copy_array<const N: usize>(to: &mut [i32], words: &[i32; N])
    requires { length to.old ≡ N }
    ensures { to.new ≡ words.now }
{
    *to.as_mut_array().unwrap() = *words;
}
