// Where the items of a deck go, while the deck is being taken.
use crate::taken::Shift;
use deck::MAX_ITEMS;
use reserved::Reserved;

// The bytes from one address up to another.
#[derive(Clone, Copy)]
pub(crate) struct Extent {
    pub(crate) start: u32,
    pub(crate) end: u32,
}

// Where an item goes: its bytes, if it is a section that is kept, and by how much that moves what refers to it.
#[derive(Clone, Copy)]
pub(crate) struct Home {
    pub(crate) extent: Option<Extent>,
    pub(crate) shift: Shift,
}

// For each item of a deck where it goes. It stands beside the deck's items and not in them: those are what the deck says, whatever
// link takes it. Dictionary, items and homes go together through four functions, but two of these change the homes, so no struct can
// lend all three.
pub(crate) type Homes = Reserved<Home, MAX_ITEMS>;

// Where the item at a place is kept, if it is a section that is.
pub(crate) fn extent_of(homes: &Homes, place: usize) -> Option<Extent> {
    homes.all.get(place)?.extent
}

// The shift of the item at a place.
pub(crate) fn shift_of(homes: &Homes, place: usize) -> Shift {
    homes
        .all
        .get(place)
        .map_or(Shift::Known(0), |home| home.shift)
}

// The final address of an input address of the section at a place, if it is kept.
pub(crate) fn final_address(homes: &Homes, section: usize, address: u32) -> Option<u32> {
    extent_of(homes, section)?;
    match shift_of(homes, section) {
        Shift::Known(by) => Some(address.wrapping_add(by)),
        Shift::OfLine(_) => None,
    }
}

// Where the first kept section lies.
pub(crate) fn first_start(homes: &Homes) -> Option<u32> {
    let first = homes.all.iter().find_map(|home| home.extent)?;
    Some(first.start)
}

// The address behind the last byte of a kept section; `before` where they have none.
pub(crate) fn last_byte(homes: &Homes, before: u32) -> u32 {
    let kept = homes.all.iter().filter_map(|home| home.extent);
    match kept.filter(|extent| extent.end > extent.start).last() {
        Some(extent) => extent.end,
        None => before,
    }
}
