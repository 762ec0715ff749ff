// The book: one call on lent words by a record's bytes. `call` asks nothing of either; the functions it uses ask what it has tested.
#![tactic(auto)]

ghost use Rattle.std.specs.Prelude.{◌≡◌, IfOk};
ghost use Rattle.layout.specs.Refusal.{drawn};
ghost use Rattle.book_rules.specs.Book.{book_answer, book_after};
ghost use Rattle.cells.specs.Meaning.{answer_of};
ghost use Rattle.book.specs.Tests.{tested_number};

use cells::Answer;
use judging::Book;
use layout::{Refusal, fields, refuse_if};
use opening::is_book;
use reading::{look_up_call, total_call};
use record::{Record, test_record};
use writing::{
    capability_call, clock_call, notice_call, outage_call, standing_call, variation_call,
    withdrawal_call,
};

// 1, then 2 to 4; the bytes as a record. `as u64`: of usize and u64 there is no From.
#[tactic(auto, using(crate::proofs::Admitted::usable), unfolding(offer_rules::specs::Numbers::draw))]
fn tested<'a>(book: &[i32], bytes: &'a [u8]) -> Result<&'a Record, Refusal>
    ensures number { drawn result ≡ tested_number book.now bytes.now }
    ensures same { IfOk result (λ r. r.now ≡ bytes.now) }
{
    refuse_if(!is_book(book), Refusal::BookUnusable)?;
    let book = Book { words: book };
    test_record(bytes, book.facilities() as u64, book.services() as u64)
}

// One call, for all words and bytes: 1 to 4, then the call's own. "Byte 5 selects among nine calls"; refusal 2 leaves no other.
// Each case returns its answer itself, so that one that reads is written straight into the caller's 112 bytes.
pub fn call(book: &mut [i32], bytes: &[u8]) -> Answer
    ensures { (answer_of result ≡ book_answer book.old bytes.now) × (book.new ≡ book_after book.old bytes.now) }
{
    let bytes = match tested(book, bytes) {
        Ok(record) => record,
        Err(refusal) => return Answer::from(refusal),
    };
    let call = bytes[fields::CALL];
    match call {
        1 => return Answer::from(clock_call(book, bytes)),
        2 => return Answer::from(capability_call(book, bytes)),
        3 => return Answer::from(standing_call(book, bytes)),
        4 => return Answer::from(variation_call(book, bytes)),
        5 => return Answer::from(outage_call(book, bytes)),
        6 => return Answer::from(notice_call(book, bytes)),
        7 => return Answer::from(withdrawal_call(book, bytes)),
        8 => return Answer::from(look_up_call(book, bytes)),
        9 => return Answer::from(total_call(book, bytes)),
        0 | 10..=255 => return Answer::from(Refusal::NotARecord),
    }
}

// 1.7.0, for C to hold against its header's.
pub const LIBRARY_VERSION: u32 = 10700;
