// Texts, constants, labels and the entry lie in their sections.
ghost use Rattle.std.specs.Prelude.{◌≡◌};
ghost use Rattle.deck.specs.Bounds.{leaves, leaves_item, out_item, out_text, out_constant};

use crate::content::Deck;
use crate::rules::{OnCard, Rule, lower, worst};
use card::{Constant, Entry, Item, Text};

// Whether `size` bytes from an input address on begin before an item's start or end past its end; only sections have bytes.
fn leaves_item(item: Item<usize>, address: u32, size: u32) -> bool
    ensures { result ≡ leaves_item item address size }
{
    match item {
        Item::Section {
            name: _,
            address: start,
            length,
        } => { address < start || address as u64 + size as u64 > start as u64 + length as u64 }
        Item::Label { .. } | Item::Reference { .. } | Item::Common { .. } => true,
    }
}

// Whether they leave the section at a place among the items.
fn leaves(items: &[OnCard<Item<usize>>], section: usize, address: u32, size: u32) -> bool
    ensures { result ≡ leaves items.now section address size }
{
    match items.get(section) {
        Some(item) => leaves_item(item.what, address, size),
        None => true,
    }
}

// What is punched stays in the sections among these items.
#[derive(Clone, Copy)]
struct Within<'a> {
    items: &'a [OnCard<Item<usize>>],
}

// A label lies in its section, or exactly at its end.
impl Rule<Item<usize>> for Within<'_> {
    ghost breaks = { λ s. out_item s.items.now };

    fn breaks(&self, x: &Item<usize>) -> bool {
        match *x {
            Item::Label {
                name: _,
                address,
                section,
            } => leaves(self.items, section, address, 0),
            Item::Section { .. } | Item::Reference { .. } | Item::Common { .. } => false,
        }
    }
}

impl Rule<Text<usize>> for Within<'_> {
    ghost breaks = { λ s. out_text s.items.now };

    fn breaks(&self, x: &Text<usize>) -> bool {
        leaves(self.items, x.section, x.address, u32::from(x.count))
    }
}

impl Rule<Constant<usize>> for Within<'_> {
    ghost breaks = { λ s. out_constant s.items.now };

    fn breaks(&self, x: &Constant<usize>) -> bool {
        leaves(self.items, x.section, x.address, u32::from(x.width))
    }
}

// Whether END's entry lies before its section's start or past its end.
fn is_stray(items: &[OnCard<Item<usize>>], entry: Option<Entry<usize>>) -> bool {
    match entry {
        Some(Entry::Address { section, address }) => leaves(items, section, address, 0),
        Some(Entry::Named(_)) | None => false,
    }
}

impl Deck {
    // The smallest card of what lies outside its section; END is card `last`.
    pub(crate) fn outside(&self, last: u16) -> Option<u16> {
        let items = self.items();
        let within = Within { items };
        let labels = worst(&within, items, None);
        let texts = worst(&within, self.texts(), labels);
        let constants = worst(&within, self.constants(), texts);
        if is_stray(items, self.entry) {
            return lower(constants, last);
        }
        constants
    }
}
