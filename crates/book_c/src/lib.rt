// The call on lent words by a record's bytes, and versions, for C. `bilzhaan_call` asks nothing of words or bytes.
#![tactic(auto)]

ghost use Rattle.std.specs.Prelude.{◌≡◌};
ghost use Rattle.book_rules.specs.Book.{book_answer, book_after};
ghost use Rattle.book_rules.specs.Words.{book_version};
ghost use Rattle.cells.specs.Meaning.{answer_of};
ghost use Rattle.book.specs.Version.{library_version};

use book::{LIBRARY_VERSION, call};
use cells::Answer;
use layout::head;

#[unsafe(no_mangle)]
pub extern "C" fn bilzhaan_call(words: &mut [i32], bytes: &[u8]) -> Answer
    ensures { (answer_of result ≡ book_answer words.old bytes.now) × (words.new ≡ book_after words.old bytes.now) }
{
    call(words, bytes)
}

// What a gateway may hold against its header's BILZHAAN_VERSION.
#[unsafe(no_mangle)]
pub extern "C" fn bilzhaan_version() -> u32
    ensures { result ≡ library_version }
{
    LIBRARY_VERSION
}

// Head word 1 of the books that this library opens and reads.
#[unsafe(no_mangle)]
pub extern "C" fn bilzhaan_book_version() -> i32
    ensures { result ≡ book_version }
{
    head::BOOK_VERSION
}
