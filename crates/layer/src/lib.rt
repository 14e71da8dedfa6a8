// Libraries that stand on libraries: two joined, names withheld, names changed inside cards.
#![tactic(auto)]

mod change;
mod edit;
mod join;
mod pair;
mod pairs;
mod table;
mod withhold;

pub use change::Change;
pub use join::Join;
pub use withhold::Withhold;
