// F and S of a book, and where they put its parts.
ghost use Rattle.std.specs.Prelude.{◌≡◌, ◌+◌, ◌*◌, ◌≤◌};
ghost use Rattle.book_rules.specs.Words.{book_size};

use crate::{cell, facility, head};

// "F not 1 to 64, S not 1 or 5" is refused.
#[derive(Clone, Copy, Debug, PartialEq, Eq)]
pub struct Sizes {
    pub facilities: usize,
    pub services: usize,
    pub ghost few_facilities: { facilities ≤ 64 },
    pub ghost few_services: { services ≤ 5 },
}

impl Sizes {
    // "Then cells": past the head and the facilities.
    pub fn first_cell(self) -> usize
        ensures { (result ≡ 64 + 32 * self.facilities) × (result ≤ 2112) }
    {
        head::WORDS + facility::WORDS * self.facilities
    }

    // "It needs N = 64 + 32·F + 16,128·F·S words."
    #[tactic(auto, unfolding(book_rules::specs::Words::book_size))]
    pub fn book_size(self) -> usize
        ensures value { result ≡ book_size self.facilities self.services }
        ensures most { result ≤ 5163200 }
    {
        self.first_cell() + cell::SERVICE_WORDS * (self.facilities * self.services)
    }
}
