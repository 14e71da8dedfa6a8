// The link while it gathers decks.
use crate::limits::Area;
use crate::reserve::Room;
use card::Name;

// The entry that a deck's END gives: a name, or an address within a kept section that ends at `end`.
#[derive(Clone, Copy)]
pub(crate) enum Start {
    Named(Name),
    Within { address: u32, end: u32 },
}

// How far a link has come.
#[derive(Clone, Copy)]
pub(crate) struct Progress {
    // behind the last kept section
    pub(crate) next: u32,
    // behind the last byte of a kept section
    pub(crate) end: u32,
    // where the section kept first lies
    pub(crate) first: Option<u32>,
    // the entry of the first taken deck whose END has one
    pub(crate) start: Option<Start>,
    // the entry name that was chosen last
    pub(crate) chosen: Option<Name>,
}

// A link over a library. Each call says for itself that the area stays, as it is lent the whole link. It takes decks, and ends by `fix` or `scrap`; it cannot be let go.
pub struct Link<L> {
    pub(crate) library: L,
    pub(crate) area: Area,
    pub(crate) room: Room,
    pub(crate) progress: Progress,
}
