// The table of a deck's IDs: lent rows, and a count record that is zero again whenever a deck was read.
ghost use Rattle.std.specs.Prelude.{◌≡◌};

use crate::rules::OnCard;
use card::{CardAt, CardFault, Item};
use table::{Count, Row, insert, lookup};

// Rows and count travel together as two parameters: they are lent as two, so that the guard below can stand over the count alone.
// A struct of both references was tried; each function that it passes through then has to promise that they are still those lent.

// One row for each of the 256 IDs that a deck may give; the value is the item's place among the deck's items.
pub type IdRows = [Row<u16, usize>; 256];

// Rows to lend, none of them in use.
pub const NO_IDS: IdRows = [Row { key: 0, value: 0 }; 256];

// A guard over the count record alone: it empties the table on every way out. Whoever makes it empties the table first.
pub(crate) struct Emptied<'a> {
    pub(crate) count: &'a mut Count,
}

impl Drop for Emptied<'_> {
    fn drop(self)
        ensures { self.exit.0.now.rows ≡ 0 }
    {
        self.count.rows = 0;
        let Emptied { count: _ } = self;
    }
}

// Gives an item its ID; refused where the ID is zero, passes 65,535, is given already, or is the 257th.
pub(crate) fn give_id(
    rows: &mut IdRows,
    count: &mut Count,
    id: u32,
    item: usize,
    at: CardAt,
) -> Result<(), CardFault> {
    let fault = CardFault::BadId(at);
    let id = u16::try_from(id).map_err(|_| fault)?;
    if id == 0 || lookup(rows, count, id).is_some() {
        return Err(fault);
    }
    insert(rows, count, id, item).map_err(|_| fault)?;
    Ok(())
}

// The items of a deck by their IDs.
#[derive(Clone, Copy)]
pub(crate) struct Ids<'r, 'c, 'i> {
    pub(crate) rows: &'r [Row<u16, usize>],
    pub(crate) count: &'c Count,
    pub(crate) items: &'i [OnCard<Item<u32>>],
}

impl Ids<'_, '_, '_> {
    // The place of the item that has the ID.
    pub(crate) fn item(&self, id: u16) -> Option<usize> {
        lookup(self.rows, self.count, id)
    }

    // The place of the section that has the ID; none where no section has it.
    pub(crate) fn section(&self, id: u32) -> Option<usize> {
        let place = self.item(u16::try_from(id).ok()?)?;
        match self.items.get(place)?.what {
            Item::Section { .. } => Some(place),
            Item::Label { .. } | Item::Reference { .. } | Item::Common { .. } => None,
        }
    }
}
