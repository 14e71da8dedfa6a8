// A deck that was read and judged: what the link takes.
ghost use Rattle.std.specs.Prelude.{◌≡◌, ◌≤◌, length};

use crate::punched::{MAX_CONSTANTS, MAX_ITEMS, MAX_TEXTS};
use crate::rules::OnCard;
use card::{Constant, Entry, Item, Text};
use reserved::Reserved;
use std::alloc::{AllocError, Global};

// Sections, labels, references and commons; texts; relocation items; and the entry point. Sections and what constants move with
// stand by their places among the items, as no field can borrow from another of its struct. All addresses are input addresses.
// `Punched` has lists of the same lengths; why the two are no one struct stands there.
#[derive(Drop)]
pub struct Deck {
    pub(crate) items: Reserved<OnCard<Item<usize>>, MAX_ITEMS>,
    pub(crate) texts: Reserved<OnCard<Text<usize>>, MAX_TEXTS>,
    pub(crate) constants: Reserved<OnCard<Constant<usize>>, MAX_CONSTANTS>,
    pub(crate) entry: Option<Entry<usize>>,
}

impl Deck {
    pub(crate) fn new(heap: Global) -> Result<Deck, AllocError> {
        Ok(Deck {
            items: Reserved::new(heap)?,
            texts: Reserved::new(heap)?,
            constants: Reserved::new(heap)?,
            entry: None,
        })
    }

    // Three lists that can be read and not changed from outside: one function cannot give all, as their elements differ.

    // Sections, labels, references and commons, in the order of their cards.
    pub fn items(&self) -> &[OnCard<Item<usize>>]
        ensures value { result.now ≡ self.now.items.all.items }
        ensures few { length result.now ≤ 1536 }
    {
        self.items.all.as_slice()
    }

    pub fn texts(&self) -> &[OnCard<Text<usize>>]
        ensures value { result.now ≡ self.now.texts.all.items }
        ensures few { length result.now ≤ 512 }
    {
        self.texts.all.as_slice()
    }

    pub fn constants(&self) -> &[OnCard<Constant<usize>>]
        ensures value { result.now ≡ self.now.constants.all.items }
        ensures few { length result.now ≤ 7168 }
    {
        self.constants.all.as_slice()
    }

    pub fn entry(&self) -> Option<Entry<usize>>
        ensures { result ≡ self.now.entry }
    {
        self.entry
    }
}
