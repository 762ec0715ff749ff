// The book's words (document 01, "The book's words" and "Offer in force"): places, stores, the offer in force,
// and what a look-up and a total answer. Each read goes straight to its words; the book is never copied.
#![tactic(auto)]

mod answers;
mod filing;
mod held;
mod in_force;
mod places;
mod stores;
mod view;

pub use answers::{Answer, plain};
pub use filing::Filing;
pub use held::Cell;
pub use in_force::{InForce, is_same_offer, look_up, pairs_of};
pub use places::{CellPlace, Half, Place};
pub use stores::{store_offer, store_words};
pub use view::{Cells, PlaceCells};
