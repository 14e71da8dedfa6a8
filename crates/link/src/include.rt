// Taking decks: include, call, entry, scrap.
ghost use Rattle.std.specs.Prelude.{◌≡◌, ◌<◌, false, map, is_ok};
ghost use Rattle.link.specs.Lines.{lines};
ghost use Rattle.link.specs.Views.{room_view, empty_room, view_of, except_marks, unmarked, opened, entry_answer, chosen};

use crate::clashes::{CommonsFit, LabelsApart};
use crate::commit::set_shifts;
use crate::fault::LinkFault;
use crate::gathering::{Link, Progress, Start};
use crate::homes::{Homes, extent_of, first_start, last_byte};
use crate::layout::{Free, lay_out};
use crate::limits::Area;
use crate::lines::Dictionary;
use crate::reserve::Room;
use card::{CardAt, Entry, Item, Name};
use deck::{IdRows, OnCard, unbroken, worst};
use library::Library;
use std::mem;
use table::Count;

// What a call answers where it is not refused.
#[derive(Clone, Copy, PartialEq, Eq, Debug)]
pub enum Called {
    // No strong name is open that was not called for before.
    NoneLeft,
    // The deck of the name was taken.
    Taken,
}

// No label clashes, and no common is longer than its section.
fn judge_names(
    dictionary: &Dictionary,
    items: &[OnCard<Item<usize>>],
    deck: u64,
) -> Result<(), LinkFault> {
    let clash = worst(&LabelsApart { dictionary, items }, items, None);
    unbroken(deck, clash).map_err(LinkFault::LabelClash)?;
    let long = worst(&CommonsFit { dictionary }, items, None);
    unbroken(deck, long).map_err(LinkFault::CommonTooLong)
}

// Where an address within the section at a place is, carried to the kept section of its name where its own was dropped.
fn start_within(
    dictionary: &Dictionary,
    items: &[OnCard<Item<usize>>],
    homes: &Homes,
    section: usize,
    address: u32,
) -> Option<Start> {
    let Item::Section {
        name,
        address: input,
        length: _,
    } = items.get(section)?.what
    else {
        return None;
    };
    let extent = match extent_of(homes, section) {
        Some(kept) => kept,
        None => dictionary.section_of(name?)?,
    };
    Some(Start::Within {
        address: extent.start.wrapping_add(address.wrapping_sub(input)),
        end: extent.end,
    })
}

// The entry that a deck gives.
fn start_of(
    entry: Option<Entry<usize>>,
    dictionary: &Dictionary,
    items: &[OnCard<Item<usize>>],
    homes: &Homes,
) -> Option<Start> {
    match entry? {
        Entry::Named(name) => Some(Start::Named(name)),
        Entry::Address { section, address } => start_within(
            dictionary, items, homes, section, address,
        ),
    }
}

impl Room {
    // Forgets the link before.
    fn clear(&mut self)
        ensures { room_view self.new ≡ empty_room }
    {
        self.dictionary.count = Count { rows: 0 };
        self.taken.clear();
        self.map.all.clear();
    }

    // Judges the deck that was read against the dictionary and the area, and gives the address behind its sections.
    fn judge(&mut self, deck: u64, free: Free) -> Result<u32, LinkFault>
        ensures { room_view self.new ≡ room_view self.old }
    {
        let items = self.deck.deck().items();
        judge_names(&self.dictionary, items, deck)?;
        lay_out(&mut self.homes, items, &self.dictionary, free).map_err(
            |card| LinkFault::OutsideArea(CardAt { deck, card }),
        )
    }

    // Drafts the dictionary with the deck's lines; refused where they would be over 1,024.
    fn redraft(&mut self, deck: u64) -> Result<(), LinkFault>
        ensures { room_view self.new ≡ room_view self.old }
    {
        self.draft.copy_from(&self.dictionary);
        self.draft
            .enter_all(self.deck.deck().items(), &self.homes)
            .map_err(|_| LinkFault::TooMany { deck })
    }

    // Takes the deck over: from here on nothing refuses it.
    fn commit(&mut self)
        requires { self.old.taken.decks < 256 }
    {
        mem::swap(&mut self.dictionary, &mut self.draft);
        let deck = self.deck.deck();
        let homes = self.homes.all.as_mut_slice();
        set_shifts(homes, &self.dictionary, deck.items());
        self.taken.take(deck, &self.homes);
    }

    // How far the link has come with the deck that was taken last.
    fn advanced(&self, before: Progress, next: u32) -> Progress {
        let deck = self.deck.deck();
        let homes = &self.homes;
        Progress {
            next,
            end: last_byte(homes, before.end),
            first: before.first.or(first_start(homes)),
            start: before.start.or_else(|| {
                start_of(deck.entry(), &self.dictionary, deck.items(), homes)
            }),
            chosen: before.chosen,
        }
    }
}

impl Dictionary {
    // The first open strong name without a mark, and its line's place.
    fn next_call(&self) -> Option<(usize, Name)> {
        for (place, row) in self.all().iter().enumerate() {
            if let Some(name) = row.key.name
                && row.value.is_wanted()
                && !row.value.marked
            {
                return Some((place, name));
            }
        }
        None
    }

    // Marks a line as picked by a call.
    fn mark(&mut self, place: usize)
        ensures { map unmarked (lines self.new) ≡ map unmarked (lines self.old) }
    {
        if place < self.rows.len() {
            self.rows[place].value.marked = true;
        }
    }
}

// That the library's meaning and the area stay, and that the ID table is empty, is told by each call: no type of a `&mut` can.
impl<L: Library> Link<L> {
    // A link that has taken nothing yet.
    pub fn open(library: L, area: Area, room: Room) -> Link<L>
        ensures view { view_of result ≡ opened area.origin }
        ensures library { result.library ≡ library }
        ensures area { result.area ≡ area }
    {
        let mut room = room;
        room.clear();
        let origin = area.origin;
        let progress = Progress {
            next: origin,
            end: origin,
            first: None,
            start: None,
            chosen: None,
        };
        Link {
            library,
            area,
            room,
            progress,
        }
    }

    // Takes the deck that was read, or refuses it and changes nothing; the 257th is refused last.
    fn take(&mut self, deck: u64) -> Result<(), LinkFault>
        ensures refused { is_ok result ≡ false → view_of self.new ≡ view_of self.old }
        ensures library { self.new.library ≡ self.old.library }
        ensures area { self.new.area ≡ self.old.area }
    {
        let free = self.free();
        let next = self.room.judge(deck, free)?;
        self.room.redraft(deck)?;
        if self.room.taken.decks >= 256 {
            return Err(LinkFault::TooMany { deck });
        }
        self.room.commit();
        self.progress = self.room.advanced(self.progress, next);
        Ok(())
    }

    // Takes the deck of a name. The ID table's rows and count are lent; the table is empty afterwards.
    pub fn include(
        &mut self,
        name: Name,
        rows: &mut IdRows,
        count: &mut Count,
    ) -> Result<(), LinkFault>
        ensures refused { is_ok result ≡ false → view_of self.new ≡ view_of self.old }
        ensures same { L.Library.meaning self.new.library ≡ L.Library.meaning self.old.library }
        ensures area { self.new.area ≡ self.old.area }
        ensures emptied { count.new.rows ≡ 0 }
    {
        self.room.deck.read(&mut self.library, name, rows, count)?;
        self.take(name.number())
    }

    // Includes the deck of the first open strong name that no call has picked, and marks the name as picked.
    pub fn call(&mut self, rows: &mut IdRows, count: &mut Count) -> Result<Called, LinkFault>
        ensures same { L.Library.meaning self.new.library ≡ L.Library.meaning self.old.library }
        ensures area { self.new.area ≡ self.old.area }
        ensures refused { is_ok result ≡ false → except_marks (view_of self.new) ≡ except_marks (view_of self.old) }
        ensures emptied { count.new.rows ≡ 0 }
    {
        count.rows = 0;
        let Some((place, name)) = self.room.dictionary.next_call() else {
            return Ok(Called::NoneLeft);
        };
        self.room.dictionary.mark(place);
        self.include(name, rows, count)?;
        Ok(Called::Taken)
    }

    // Chooses the entry name, in place of any earlier one.
    pub fn entry(&mut self, name: Name) -> Result<(), LinkFault>
        ensures answer { result ≡ entry_answer name }
        ensures view { view_of self.new ≡ chosen name (view_of self.old) }
        ensures library { self.new.library ≡ self.old.library }
        ensures area { self.new.area ≡ self.old.area }
    {
        if name.is_blank() {
            return Err(LinkFault::BlankEntry);
        }
        self.progress.chosen = Some(name);
        Ok(())
    }

    // Ends the link, and gives the library and the room back.
    pub fn scrap(self) -> (L, Room)
        ensures { (result.0 ≡ self.library) × (result.1 ≡ self.room) }
    {
        let Link {
            library,
            area: _,
            room,
            progress: _,
        } = self;
        (library, room)
    }
}
