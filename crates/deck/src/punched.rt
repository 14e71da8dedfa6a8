// A deck as it is punched: items, texts and constants in the order of their cards, with IDs.
use crate::rules::OnCard;
use card::{Constant, EndCard, Item, Text};
use reserved::Reserved;
use std::alloc::{AllocError, Global};

// What a deck of 512 cards can hold: an ESD card has at most 3 items, a TXT card one text, an RLD card at most 14 constants.
pub const MAX_ITEMS: usize = 1_536;

pub(crate) const MAX_TEXTS: usize = 512;

pub(crate) const MAX_CONSTANTS: usize = 7_168;

// Room for a deck of 512 cards. `Deck` has lists of the same lengths, of what the IDs here come to. One struct for the lists of both
// would need two parameters (a label's ID has three bytes, the others two), and every use would go through it: no plainer.
#[derive(Drop)]
pub(crate) struct Punched {
    pub(crate) items: Reserved<OnCard<Item<u32>>, MAX_ITEMS>,
    pub(crate) texts: Reserved<OnCard<Text<u16>>, MAX_TEXTS>,
    pub(crate) constants: Reserved<OnCard<Constant<u16>>, MAX_CONSTANTS>,
    pub(crate) end: EndCard,
}

impl Punched {
    pub(crate) fn new(heap: Global) -> Result<Punched, AllocError> {
        Ok(Punched {
            items: Reserved::new(heap)?,
            texts: Reserved::new(heap)?,
            constants: Reserved::new(heap)?,
            end: EndCard::default(),
        })
    }
}
