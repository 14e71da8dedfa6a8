// The link: decks taken from a library, their sections laid out in an area, and the map of the program.
#![tactic(auto)]

mod area_check;
mod clashes;
mod commit;
mod dictionary;
mod draft;
mod fault;
mod fixed;
mod gathering;
mod homes;
mod include;
mod layout;
mod limits;
mod lines;
mod map;
mod maplines;
mod reserve;
mod taken;

pub use fault::LinkFault;
pub use fixed::{OpenNames, Program};
pub use gathering::Link;
pub use include::Called;
pub use limits::Area;
pub use maplines::{MapKind, MapLine};
pub use reserve::Room;
