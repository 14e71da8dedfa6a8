// Room for one deck, and reading a deck into it.
ghost use Rattle.std.specs.Prelude.{◌≡◌};

use crate::apart::first_clash;
use crate::content::Deck;
use crate::fault::DeckFault;
use crate::gather::read_cards;
use crate::ids::{Emptied, IdRows};
use crate::overlap::Spot;
use crate::punched::{MAX_CONSTANTS, MAX_ITEMS, Punched};
use crate::rules::{OnCard, unbroken};
use card::{Item, Name};
use library::Library;
use reserved::Reserved;
use std::alloc::{AllocError, Global};
use table::Count;

// Memory for a deck of 512 cards, as it is punched and as it is judged, reserved once.
#[derive(Drop)]
pub struct DeckRoom {
    punched: Punched,
    deck: Deck,
    // where the deck's constants lie
    spots: Reserved<Spot, MAX_CONSTANTS>,
    // the names that it defines, as numbers
    defined: Reserved<u64, MAX_ITEMS>,
}

// Whether END's length could belong to two sections: two have ESD length zero.
fn is_unclear(items: &[OnCard<Item<u32>>], length: Option<u32>) -> bool {
    length.is_some() && items.iter().filter(|item| has_no_length(item.what)).count() >= 2
}

// A section of ESD length zero.
fn has_no_length(item: Item<u32>) -> bool {
    matches!(item, Item::Section { length: 0, .. })
}

impl DeckRoom {
    pub fn new(heap: Global) -> Result<DeckRoom, AllocError> {
        Ok(DeckRoom {
            punched: Punched::new(heap)?,
            deck: Deck::new(heap)?,
            spots: Reserved::new(heap)?,
            defined: Reserved::new(heap)?,
        })
    }

    // The deck that was read last.
    pub fn deck(&self) -> &Deck
        ensures { result.now ≡ self.now.deck }
    {
        &self.deck
    }

    // Judges the cards that were read, as far as the deck alone decides it.
    fn judge(
        &mut self,
        rows: &IdRows,
        count: &Count,
        deck: u64,
        last: u16,
    ) -> Result<(), DeckFault> {
        let unknown = self.deck.resolve(&self.punched, rows, count, last);
        unbroken(deck, unknown).map_err(DeckFault::UnknownId)?;
        if is_unclear(self.punched.items.all.as_slice(), self.punched.end.length) {
            return Err(DeckFault::UnclearLength { deck });
        }
        unbroken(deck, self.deck.outside(last)).map_err(DeckFault::OutsideSection)?;
        let overlap = first_clash(&mut self.spots, self.deck.constants());
        unbroken(deck, overlap).map_err(DeckFault::ConstantsOverlap)?;
        let again = first_clash(&mut self.defined, self.deck.items());
        unbroken(deck, again).map_err(DeckFault::NameTwice)
    }

    // Reads the deck of a name from a library and judges it whole; the ID table is empty afterwards, which each call that is lent
    // it says for itself: no type of a `&mut` can.
    pub fn read<L: Library>(
        &mut self,
        library: &mut L,
        name: Name,
        rows: &mut IdRows,
        count: &mut Count,
    ) -> Result<(), DeckFault>
        ensures same { L.Library.meaning library.new ≡ L.Library.meaning library.old }
        ensures emptied { count.new.rows ≡ 0 }
    {
        let emptied = Emptied { count };
        emptied.count.rows = 0;
        self.punched.clear();
        let last = read_cards(library, name, rows, emptied.count, &mut self.punched)?;
        self.judge(rows, emptied.count, name.number(), last)
    }
}
