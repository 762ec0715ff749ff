// The tests of a call over the book's words, from 5 on: each reads its words where they stand, and nothing is written.
// What refusal 1 has tested of the words, and that a facility and a service lie in the book, is known of the types.
// A record's bytes are asked for as an array: the crate that has a name for it stands beside this one.
// A bound stands beside a number's equation for callers that don't unfold the rule.
#![tactic(auto)]

mod book;
mod facility;
mod series;

pub use book::Book;
pub use facility::Facility;
pub use series::Series;
