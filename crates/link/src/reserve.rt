// The memory of a link, reserved once.
use crate::homes::Homes;
use crate::lines::Dictionary;
use crate::maplines::MapLines;
use crate::taken::Taken;
use deck::DeckRoom;
use reserved::Reserved;
use std::alloc::{AllocError, Global};

// Room for all that a link can ever need: 1,024 lines and as many for a draft, one deck of 512 cards, and the texts and
// constants of 256 decks. Making it is the only call that can want for memory.
#[derive(Drop)]
pub struct Room {
    pub(crate) dictionary: Dictionary,
    pub(crate) draft: Dictionary,
    pub(crate) deck: DeckRoom,
    pub(crate) homes: Homes,
    pub(crate) taken: Taken,
    pub(crate) map: MapLines,
}

impl Room {
    pub fn new(heap: Global) -> Result<Room, AllocError> {
        Ok(Room {
            dictionary: Dictionary::new(heap)?,
            draft: Dictionary::new(heap)?,
            deck: DeckRoom::new(heap)?,
            homes: Reserved::new(heap)?,
            taken: Taken::new(heap)?,
            map: Reserved::new(heap)?,
        })
    }
}
