// The opening of a book, refusal 20, and the test that words are a book, refusal 1.
// Head, facilities and cells are lent on as parts of the book, and each is written from its start to its end.
// Narrowing stays `as`, proved to lose nothing: a `try_from` would be tested as it runs.
#![tactic(auto)]

ghost use Rattle.std.specs.Prelude.{◌≡◌, ◌&&◌, ◌+◌, ◌*◌, ◌≤◌, leb, length, drop, is_some, IfSome, IfOk, OnErr};
ghost use Rattle.offer_rules.specs.Numbers.{to_nat};
ghost use Rattle.book_rules.specs.Record.{sizes_ok};
ghost use Rattle.book_rules.specs.Words.{book_size, is_book, limits_ok, opening_number};
ghost use Rattle.book_rules.specs.Words.{empty_facility, empty_facilities, opening_head, opened, opening_words};
ghost use Rattle.layout.specs.Refusal.{drawn};

use layout::{Refusal, Sizes, facility, head, refuse_if, time};
use record::is_sized;
use units::{any_beyond, is_beyond, nat};

// "a limit beyond ±10,000,000"
const LOWEST_LIMIT: i32 = -10000000;

const HIGHEST_LIMIT: i32 = 10000000;

// "F not 1 to 64, S not 1 or 5, fewer than N words"
#[tactic(auto, using(units::proofs::Counts::word_back, crate::proofs::UsableBooks::sized))]
fn sizes_that_fit(words: usize, facilities: i32, services: i32) -> Option<Sizes>
    ensures fits { is_some result ≡ (sizes_ok facilities services && leb (book_size (to_nat facilities) (to_nat services)) words) }
    ensures sizes { IfSome result (λ s. (s.facilities ≡ to_nat facilities) × (s.services ≡ to_nat services)) }
{
    if !is_sized(facilities, services) {
        return None;
    }
    let sizes = Sizes {
        facilities: nat(facilities) as usize,
        services: nat(services) as usize,
    };
    (sizes.book_size() <= words).then_some(sizes)
}

// 20 "a limit beyond ±10,000,000, or not lowest ≤ 0 ≤ highest; 0 ≤ highest for services 1–4"
pub fn limits_ok(limits: [i32; head::LIMIT_COUNT]) -> bool
    ensures { result ≡ limits_ok limits }
{
    let beyond = any_beyond(&limits, LOWEST_LIMIT, HIGHEST_LIMIT);
    let negative = any_beyond(&limits[1..], 0, HIGHEST_LIMIT);
    !beyond & ((limits[0] <= 0) & !negative)
}

// 1 "fewer than 64 words, mark or version wrong, F not 1 to 64, S not 1 or 5, fewer than N words, or clock outside 0 to 1,000,000,000"
#[tactic(auto, unfolding(book_rules::specs::Words::is_book))]
pub fn is_book(book: &[i32]) -> bool
    ensures { result ≡ is_book book.now }
{
    if book.len() < head::WORDS {
        return false;
    }
    let headed = (book[head::MARK] == head::BOOK_MARK)
        & (book[head::VERSION] == head::BOOK_VERSION);
    let sizes = sizes_that_fit(book.len(), book[head::FACILITIES], book[head::SERVICES]);
    (headed & sizes.is_some()) & !is_beyond(0, time::LAST_MINUTE, book[head::CLOCK])
}

// 20 "F, S wrong, words too few", or the limits; else the sizes. F, S and the limits are asked for as C lends them.
#[tactic(auto, unfolding(book_rules::specs::Words::opening_number, book_rules::specs::Words::opening_words, offer_rules::specs::Numbers::draw))]
fn opening_sizes(
    book: &[i32],
    facilities: i32,
    services: i32,
    limits: [i32; head::LIMIT_COUNT],
) -> Result<Sizes, Refusal>
    ensures number { drawn result ≡ opening_number book.now facilities services limits }
    ensures refused { OnErr result (opening_words book.now facilities services limits ≡ book.now) }
    ensures sizes { IfOk result (λ s. (s.facilities ≡ to_nat facilities) × (s.services ≡ to_nat services) × (book_size s.facilities s.services ≤ length book.now)) }
{
    let sizes = sizes_that_fit(book.len(), facilities, services).ok_or(Refusal::Opening)?;
    refuse_if(!limits_ok(limits), Refusal::Opening)?;
    Ok(sizes)
}

// "0 the mark 0x534F42; 1 version ..; 2 F; 3 S; 4 clock; 5–10 first and last of notices 3, 4, 5", and the limits
fn write_head(head: &mut [i32; head::WORDS], sizes: Sizes, limits: [i32; head::LIMIT_COUNT])
    ensures { head.new ≡ opening_head sizes.facilities sizes.services limits }
{
    let [first, last] = time::EMPTY_WINDOW;
    let leading = [
        head::BOOK_MARK,
        head::BOOK_VERSION,
        sizes.facilities as i32,
        sizes.services as i32,
        0,
        first,
        last,
        first,
        last,
        first,
        last,
    ];
    head[..head::LIMITS].copy_from_slice(&leading);
    head[head::LIMITS..head::LIMITS_END].copy_from_slice(&limits);
    head[head::LIMITS_END..].fill(0);
}

// A facility of kind 0, whose outage window is 1 to 0.
#[tactic(auto, unfolding(book_rules::specs::Words::empty_facility))]
fn empty_facility() -> [i32; facility::WORDS]
    ensures { result ≡ empty_facility }
{
    let mut words = [0; facility::WORDS];
    [words[facility::OUTAGE], words[facility::OUTAGE + 1]] = time::EMPTY_WINDOW;
    words
}

// By places: of chunks that are written std's contracts don't say what their slice ends as.
#[tactic(auto, unfolding(book_rules::specs::Words::empty_facilities))]
fn write_facilities(words: &mut [i32], sizes: Sizes)
    requires { length words.old ≡ 32 * sizes.facilities }
    ensures { words.new ≡ empty_facilities sizes.facilities }
{
    for f in 0..sizes.facilities {
        let at = facility::WORDS * f;
        words[at..at + facility::WORDS].copy_from_slice(&empty_facility());
    }
}

// "Opening writes words 0 to N − 1: mark, version, F and S as above, clock 0, all windows 1 to 0 (empty), given limits, else zero."
#[tactic(auto, unfolding(book_rules::specs::Words::book_size))]
fn write_words(book: &mut [i32], sizes: Sizes, limits: [i32; head::LIMIT_COUNT])
    requires { book_size sizes.facilities sizes.services ≤ length book.old }
    ensures { book.new ≡ opened sizes.facilities sizes.services limits (drop (book_size sizes.facilities sizes.services) book.old) }
{
    let cells = sizes.first_cell();
    let end = sizes.book_size();
    write_head(book.first_chunk_mut().unwrap(), sizes, limits);
    write_facilities(&mut book[head::WORDS..cells], sizes);
    book[cells..end].fill(0);
}

// Opens the book, or refuses and writes nothing.
#[tactic(auto, unfolding(book_rules::specs::Words::opening_words))]
pub fn open(
    book: &mut [i32],
    facilities: i32,
    services: i32,
    limits: [i32; head::LIMIT_COUNT],
) -> Result<(), Refusal>
    ensures number { drawn result ≡ opening_number book.old facilities services limits }
    ensures words { book.new ≡ opening_words book.old facilities services limits }
{
    let sizes = opening_sizes(book, facilities, services, limits)?;
    write_words(book, sizes, limits);
    Ok(())
}
