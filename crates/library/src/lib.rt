// Libraries of decks: what one is asked, and a tray of cards that answers.
#![tactic(auto)]

mod answer;
mod cards;
mod check;
mod fault;
mod find;
mod lent;
mod shelf;
mod stretch;
mod tray;

pub use fault::LibraryFault;
pub use shelf::{Library, NoCard};
pub use tray::Tray;
