// Giving each item of a deck its line.
use crate::homes::{Extent, Homes, extent_of, final_address};
use crate::lines::{Dictionary, LineState};
use card::{Item, Name, Strength};
use deck::OnCard;
use table::Full;

// What a common makes of what is known of its name: the larger of two commons, and nothing of a section.
fn with_common(state: LineState, length: u32) -> LineState {
    match state {
        LineState::Common { length: other } => LineState::Common {
            length: other.max(length),
        },
        LineState::Open => LineState::Common { length },
        LineState::Section { .. } | LineState::Label { .. } => state,
    }
}

impl Dictionary {
    // Defines a name as a section or a label.
    fn define(&mut self, name: Name, state: LineState) -> Result<(), Full> {
        self.change_line(name, |line| line.state = state)
    }

    // A reference to a name, which is open unless it is defined.
    fn refer(&mut self, name: Name, strength: Strength) -> Result<(), Full> {
        self.change_line(name, |line| {
            if strength == Strength::Strong {
                line.strength = strength;
            }
        })
    }

    // A common of a name.
    fn share(&mut self, name: Name, length: u32) -> Result<(), Full> {
        self.change_line(name, |line| line.state = with_common(line.state, length))
    }

    // A section that is kept.
    fn keep(&mut self, name: Option<Name>, home: Extent, length: u32) -> Result<(), Full> {
        let state = LineState::Section {
            address: home.start,
            length,
        };
        match name {
            Some(name) => self.define(name, state),
            None => self.add_private(state),
        }
    }

    // Gives the item at a place its line, if it gets one: a dropped section has one, and its labels get none.
    fn enter(&mut self, homes: &Homes, place: usize, item: Item<usize>) -> Result<(), Full> {
        match item {
            Item::Section {
                name,
                address: _,
                length,
            } => match extent_of(homes, place) {
                Some(home) => self.keep(name, home, length),
                None => Ok(()),
            },
            Item::Label {
                name,
                address,
                section,
            } => match final_address(homes, section, address) {
                Some(address) => self.define(name, LineState::Label { address }),
                None => Ok(()),
            },
            Item::Reference { name, strength } => self.refer(name, strength),
            Item::Common { name, length } => self.share(name, length),
        }
    }

    // Gives each item of a deck its line; refused where they would be over 1,024.
    pub(crate) fn enter_all(
        &mut self,
        items: &[OnCard<Item<usize>>],
        homes: &Homes,
    ) -> Result<(), Full> {
        for (place, item) in items.iter().enumerate() {
            self.enter(homes, place, item.what)?;
        }
        Ok(())
    }
}
