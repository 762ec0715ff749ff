// A facility of the book, and its words.
ghost use Rattle.std.specs.Prelude.{◌≡◌, false, ◌+◌, ◌≤◌, ◌<◌, length};
ghost use Rattle.offer_rules.specs.Numbers.{to_nat, word};
ghost use Rattle.offer_rules.specs.Offer.{pairs_in};
ghost use Rattle.offer_rules.specs.Gate.{is_open};
ghost use Rattle.layout.specs.Refusal.{drawn};
ghost use Rattle.book_rules.specs.Record.{facility_of};
ghost use Rattle.book_rules.specs.Words.{part, clock_place, facility_place};
ghost use Rattle.book_rules.specs.Refusals.{facility_number, gate_number, grounds};
ghost use Rattle.book_rules.specs.Book.{facilities_in, book_view};
ghost use Rattle.gate.specs.Meaning.{grounds_of, words_held, words_of};
ghost use Rattle.judging.specs.Usable.{Usable};

use crate::book::Book;
use gate::{Filing, Grounds, Held, Offer, is_excepted};
use layout::{Refusal, facility, fields, head, refuse_if};

#[derive(Clone, Copy, Debug, PartialEq, Eq)]
pub struct Facility<'a> {
    pub book: Book<'a>,
    pub f: usize,
    pub ghost inside: { f < facilities_in book.words.now },
}

impl<'a> Facility<'a> {
    // The one that a record names.
    pub fn named(book: &'a [i32], bytes: &[u8; fields::BYTES]) -> Facility<'a>
        requires usable { Usable book.now }
        requires inside { facility_of bytes.now < facilities_in book.now }
        ensures { (result.book.words.now ≡ book.now) × (result.f ≡ facility_of bytes.now) }
    {
        Facility {
            book: Book { words: book },
            f: usize::from(bytes[fields::FACILITY]),
        }
    }

    // Where its words start.
    pub fn start(&self) -> usize
        ensures { (result ≡ facility_place self.now.f) × (result + 32 ≤ length self.now.book.words.now) }
    {
        head::WORDS + facility::WORDS * self.f
    }

    // W0 to W16.
    #[tactic(auto, using(std::proofs::lemmas::List::take_rest), unfolding(book_rules::specs::Words::part))]
    pub fn capability(&self) -> &'a [i32; facility::CAPABILITY]
        ensures { result.now ≡ part (facility_place self.now.f) 17 self.now.book.words.now }
    {
        let at = self.start();
        self.book.words[at..at + facility::CAPABILITY]
            .as_array()
            .unwrap()
    }

    // 5.
    pub fn check_kind(&self) -> Result<(), Refusal>
        ensures number { drawn result ≡ facility_number (part (facility_place self.now.f) 17 self.now.book.words.now) }
        ensures bound { drawn result ≤ 5 }
    {
        refusals::check_kind(self.capability())
    }

    // What a reason is held against.
    #[tactic(auto, using(units::proofs::Counts::word_back, crate::proofs::Lent::first_of_part), unfolding(book_rules::specs::Refusals::grounds, book_rules::specs::Book::book_view))]
    fn grounds(&self) -> Grounds
        ensures { grounds_of result ≡ grounds (book_view self.now.book.words.now) self.now.f }
    {
        let at = self.start();
        Grounds {
            kind: self.book.words[at],
            outage: self.book.window_at(at + facility::OUTAGE),
            surplus: self.book.window_at(head::ENERGY_SURPLUS),
            shortfall: self.book.window_at(head::SHORTFALL),
            status: self.book.window_at(head::SYSTEM_STATUS),
        }
    }

    // 17 inside gate closure, of old and new.
    #[tactic(auto, using(crate::proofs::Stages::shut_draws, layout::proofs::Chains::draw_most))]
    pub(crate) fn check_gate(
        &self,
        filing: Filing,
        old: Option<Held<'_>>,
        new: Option<Offer<'_>>,
    ) -> Result<(), Refusal>
        requires shut { is_open (to_nat (word self.now.book.words.now clock_place)) filing.period ≡ false }
        ensures number { drawn result ≡ gate_number (to_nat (word self.now.book.words.now clock_place)) (grounds (book_view self.now.book.words.now) self.now.f) filing.service filing.period filing.reason (pairs_in (words_held old.entry)) (pairs_in (words_of new.entry)) }
        ensures bound { drawn result ≤ 17 }
    {
        let excepted = is_excepted(self.grounds(), filing, old, new);
        refuse_if(!excepted, Refusal::GateClosed)
    }
}
