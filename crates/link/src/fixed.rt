// Fixing a link, and the program that it becomes.
ghost use Rattle.std.specs.Prelude.{◌≡◌};

use crate::fault::LinkFault;
use crate::gathering::{Link, Progress, Start};
use crate::layout::Free;
use crate::limits::Area;
use crate::lines::{Dictionary, LineState};
use crate::map::fill_map;
use crate::maplines::MapLine;
use crate::reserve::Room;
use card::Name;

// Whether fix permits strong names that are open.
#[derive(Clone, Copy, PartialEq, Eq, Debug)]
pub enum OpenNames {
    Refused,
    Permitted,
}

// What fix works out: the entry's address, and the address behind the image's last byte.
#[derive(Clone, Copy)]
pub(crate) struct Settled {
    pub(crate) entry: u32,
    pub(crate) end: u32,
}

// A program that a link was fixed into; where the fix check refused it, it tells no line. It cannot be let go.
pub struct Program<L> {
    library: L,
    area: Area,
    room: Room,
    outcome: Result<Settled, LinkFault>,
}

// The address of a name that is a section or a label.
fn name_address(dictionary: &Dictionary, name: Name) -> Option<u32> {
    match dictionary.line_of(name)?.state {
        LineState::Section { address, .. } | LineState::Label { address } => Some(address),
        LineState::Common { .. } | LineState::Open => None,
    }
}

// The address of an entry that a deck gives; none where it lies past its section's end.
fn start_address(dictionary: &Dictionary, start: Start) -> Option<u32> {
    match start {
        Start::Named(name) => name_address(dictionary, name),
        Start::Within { address, end } => (address <= end).then_some(address),
    }
}

// The entry: the chosen name, else the first that a deck gives, else the section kept first.
fn entry_address(dictionary: &Dictionary, progress: Progress, first: u32) -> Option<u32> {
    if let Some(name) = progress.chosen {
        return name_address(dictionary, name);
    }
    match progress.start {
        Some(start) => start_address(dictionary, start),
        None => Some(first),
    }
}

impl<L> Link<L> {
    // What is free of the area behind the sections.
    pub(crate) fn free(&self) -> Free {
        Free {
            next: self.progress.next,
            limit: self.area.end(),
        }
    }

    // Works out what fix needs, or why it refuses.
    fn settle(&self, open: OpenNames) -> Result<Settled, LinkFault> {
        let dictionary = &self.room.dictionary;
        let progress = self.progress;
        if open == OpenNames::Refused && dictionary.has_open() {
            return Err(LinkFault::OpenName);
        }
        let first = progress.first.ok_or(LinkFault::NoSection)?;
        let end = dictionary
            .image_end(self.free(), progress.end)
            .ok_or(LinkFault::CommonOutsideArea)?;
        let entry = entry_address(dictionary, progress, first).ok_or(LinkFault::BadEntry)?;
        Ok(Settled { entry, end })
    }

    // Whether the link can be fixed; changes nothing.
    pub fn check(&self, open: OpenNames) -> Result<(), LinkFault> {
        self.settle(open)?;
        Ok(())
    }

    // Moves the link into a program, also where the check refuses it.
    pub fn fix(self, open: OpenNames) -> Program<L>
        ensures { (result.library ≡ self.library) × (result.area ≡ self.area) }
    {
        let outcome = self.settle(open);
        let free = self.free();
        let Link {
            library,
            area,
            room,
            progress: _,
        } = self;
        let mut room = room;
        if outcome.is_ok() {
            fill_map(&mut room.map, &room.dictionary, free);
        }
        Program {
            library,
            area,
            room,
            outcome,
        }
    }
}

impl<L> Program<L> {
    // Line n of the map, from 1.
    pub fn line(&self, n: usize) -> Option<MapLine> {
        self.room.map.all.get(n.checked_sub(1)?).copied()
    }

    // The address of the entry, or why the program was refused.
    pub fn entry(&self) -> Result<u32, LinkFault> {
        Ok(self.outcome?.entry)
    }

    // Ends the program, and gives the library and the room back.
    pub fn scrap(self) -> (L, Room)
        ensures { (result.0 ≡ self.library) × (result.1 ≡ self.room) }
    {
        let Program {
            library,
            area: _,
            room,
            outcome: _,
        } = self;
        (library, room)
    }
}
