// The cards of a System/360 object deck: names, fields, items, and what a card of eighty bytes says.
#![tactic(auto)]

mod charset;
mod content;
mod end;
mod esd;
mod fields;
mod kind;
mod name;
mod reading;
mod refusal;
mod rld;
mod txt;

pub use charset::{punched, shown};
pub use content::{
    Card, Constant, EndCard, Entry, EsdCard, Item, RldCard, Sign, Strength, Text, Width,
};
pub use kind::CardKind;
pub use name::Name;
pub use reading::parse;
pub use refusal::{CardAt, CardFault, Layer, Refusal};
