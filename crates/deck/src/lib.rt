// Reading a deck: its cards from a library, judged whole.
#![tactic(auto)]

mod apart;
mod bounds;
mod content;
mod defined;
mod fault;
mod gather;
mod ids;
mod overlap;
mod punched;
mod resolve;
mod room;
mod rules;

pub use content::Deck;
pub use fault::DeckFault;
pub use ids::{IdRows, NO_IDS};
pub use punched::MAX_ITEMS;
pub use room::DeckRoom;
pub use rules::{OnCard, Rule, lower, unbroken, worst};
