// Document 01's places, widths and numbers that more than one crate needs, each said once in code: the words of a book, the bytes of a record, services, slots, minutes,
// and who draws which number. The rule's own text of them is in offer_rules and book_rules; a contract that is met shows that both agree.
#![tactic(auto)]

pub mod answer;
pub mod cell;
pub mod facility;
pub mod fields;
pub mod head;
pub mod offer;
pub mod refusal;
pub mod service;
pub mod sizes;
pub mod time;

pub use cell::Stamp;
pub use refusal::{Refusal, drawn, refuse_if};
pub use service::Service;
pub use sizes::Sizes;
pub use time::{Minute, Period, Slot};
