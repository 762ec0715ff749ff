// What an accepted call writes in the book.
// `as` makes a stamp and a minute words, and loses nothing, which is proved; a `try_from` would be tested as it runs.
ghost use Rattle.std.specs.Prelude.{◌≡◌, false, ◌+◌, ◌≤◌, pos, length};
ghost use Rattle.offer_rules.specs.Numbers.{beyond};
ghost use Rattle.offer_rules.specs.Offer.{accepted_at, most_ramp};
ghost use Rattle.book_rules.specs.Words.{put, packed_ramps, cell};
ghost use Rattle.book_rules.specs.Book.{write_cell};
ghost use Rattle.cells.specs.Meaning.{Sized, half_number};

use crate::filing::Filing;
use crate::places::CellPlace;
use layout::{cell, offer};
use offers::words_of_pairs;
use units::copy_array;

// "ramp up times 10,000 plus ramp down"
fn packed_ramps(up: i32, down: i32) -> i32
    requires { (beyond (pos 0) most_ramp up ≡ false) × (beyond (pos 0) most_ramp down ≡ false) }
    ensures { result ≡ packed_ramps up down }
{
    up * cell::RAMP_UNIT + down
}

// "0 stamp (0 empty, 1 standing, P + 1 variation), 1 proportion, .. 4–23 pairs"; "word 3 the minute"
// A slice, as what the book ends as isn't proved where a part of it is lent on as an array: tried.
#[tactic(auto, unfolding(offer_rules::specs::Numbers::any_beyond))]
fn write_cell(words: &mut [i32], filing: Filing<'_>)
    requires { length words.old ≡ 24 }
    ensures { words.new ≡ cell filing.entry.stamp.number (accepted_at filing.entry.minute.number filing.entry.offer.now) }
{
    let offer = filing.offer;
    words[cell::STAMP] = filing.stamp.number as i32;
    words[cell::PROPORTION] = offer[offer::PROPORTION];
    words[cell::RAMPS] = packed_ramps(offer[offer::RAMP_UP], offer[offer::RAMP_DOWN]);
    words[cell::MINUTE] = filing.minute.number as i32;
    copy_array(&mut words[cell::PAIRS..cell::WORDS], words_of_pairs(offer));
}

// "An accepted offer writes one cell's 24 words and no other word."
#[tactic(auto, unfolding(book_rules::specs::Words::put, book_rules::specs::Book::write_cell))]
pub fn store_offer(book: &mut [i32], at: CellPlace, filing: Filing<'_>)
    requires { Sized book.old at.place.sizes.facilities at.place.sizes.services }
    ensures { book.new ≡ write_cell book.old at.place.f at.place.s (half_number at.half) at.slot.number (cell filing.entry.stamp.number (accepted_at filing.entry.minute.number filing.entry.offer.now)) }
{
    let at = at.start();
    let end = at + cell::WORDS;
    write_cell(&mut book[at..end], filing);
}

// "Other accepted calls write only the fields they carry." Word by word, of which one, two or 17 become single stores:
// copy_from_slice also tests whether the two overlap, and reads back what was just written to a local. By places, as of what is written through
// `iter_mut` it isn't known what the book ends as.
pub fn store_words(book: &mut [i32], at: usize, words: &[i32])
    requires { at + length words.now ≤ length book.old }
    ensures { book.new ≡ put book.old at words.now }
{
    for (i, word) in words.iter().enumerate() {
        book[at + i] = *word;
    }
}
