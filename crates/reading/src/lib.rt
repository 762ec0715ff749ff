// The two calls that read (8 and 9), on a book that passes 1 by a record that passes 2, 3 and 4: "Calls 8 and 9 write none."
#![tactic(auto)]

ghost use Rattle.std.specs.Prelude.{◌≡◌, ◌<◌, Some, IfOk};
ghost use Rattle.offer_rules.specs.Numbers.{to_nat};
ghost use Rattle.layout.specs.Refusal.{drawn};
ghost use Rattle.book_rules.specs.Record.{call_of, service_of};
ghost use Rattle.book_rules.specs.Force.{in_force};
ghost use Rattle.book_rules.specs.Refusals.{look_up_number};
ghost use Rattle.book_rules.specs.Book.{services_in, book_view, book_answer};
ghost use Rattle.cells.specs.Meaning.{meaning, answered};
ghost use Rattle.judging.specs.Tested.{Tested, Place};

use cells::{Answer, InForce};
use judging::{Book, Series};
use layout::{Refusal, Service, fields};
use record::{Record, period_word};

// 5, 10 and 19; the offer in force.
#[tactic(auto, using(layout::proofs::Chains::passed_first, layout::proofs::Chains::refused_first, crate::proofs::LookUpNumber::force_drawn), unfolding(book_rules::specs::Refusals::look_up_number, book_rules::specs::Book::book_view))]
fn asked<'a>(series: Series<'a>, period: i32) -> Result<InForce<'a>, Refusal>
    ensures number { drawn result ≡ look_up_number (book_view series.entry.facility.book.words.now) series.entry.facility.f series.entry.service.number period }
    ensures offer { IfOk result (λ x. meaning (Some x) ≡ in_force (book_view series.entry.facility.book.words.now) series.entry.facility.f series.entry.service.number (to_nat period)) }
{
    let book = series.facility.book;
    series.facility.check_kind()?;
    let period = book.check_period(period)?;
    let offer = series.cells().in_force(period);
    offer.ok_or(Refusal::NothingInForce)
}

// 5, 10 and 19; answers the offer in force.
pub fn look_up_call(book: &[i32], bytes: &Record) -> Result<Answer, Refusal>
    requires { Place book.now bytes.now 8 }
    ensures { answered result ≡ book_answer book.now bytes.now }
{
    let series = Series::named(book, bytes);
    let offer = asked(series, period_word(bytes))?;
    Ok(offer.look_up(series.facility.book.clock()))
}

// 10; answers the count and the sum.
pub fn total_call(book: &[i32], bytes: &Record) -> Result<Answer, Refusal>
    requires { Tested book.now bytes.now × (call_of bytes.now ≡ 9) × (service_of bytes.now < services_in book.now) }
    ensures { answered result ≡ book_answer book.now bytes.now }
{
    let book = Book { words: book };
    let service = Service {
        number: bytes[fields::SERVICE],
    };
    let period = book.check_period(period_word(bytes))?;
    Ok(book.cells().total(service.place(), period))
}
