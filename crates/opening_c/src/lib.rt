// The opening, for C.
#![tactic(auto)]

ghost use Rattle.std.specs.Prelude.{◌≡◌};
ghost use Rattle.book_rules.specs.Words.{opening_number, opening_words};

use layout::{drawn, head};
use opening::open;

#[unsafe(no_mangle)]
pub extern "C" fn bilzhaan_open(
    words: &mut [i32],
    facilities: i32,
    services: i32,
    limits: &[i32; head::LIMIT_COUNT],
) -> u32
    ensures number { result ≡ opening_number words.old facilities services limits.now }
    ensures words { words.new ≡ opening_words words.old facilities services limits.now }
{
    drawn(open(words, facilities, services, *limits))
}
