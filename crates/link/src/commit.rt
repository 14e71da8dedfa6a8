// Taking a deck's texts and constants over, once nothing can refuse it any more.
ghost use Rattle.std.specs.Prelude.{◌≡◌, ◌+◌, ◌<◌, ◌≤◌, length, vec_len, vec_capacity};

use crate::homes::{Home, Homes, final_address, shift_of};
use crate::lines::Dictionary;
use crate::taken::{Relocation, Run, Shift, Taken};
use card::{Constant, Item, Name, Text};
use deck::{Deck, OnCard};

// The shift of a section that was dropped: that of the section of its name, which is kept.
fn dropped_shift(dictionary: &Dictionary, name: Option<Name>, address: u32) -> Shift {
    let kept = name.and_then(|name| dictionary.section_of(name));
    Shift::Known(kept.map_or(0, |section| section.start.wrapping_sub(address)))
}

// The shift of a reference or a common, whose input address is zero: the address that its line gets.
fn named_shift(dictionary: &Dictionary, name: Name) -> Shift {
    dictionary
        .place_of(name)
        .map_or(Shift::Known(0), Shift::OfLine)
}

// The shift of an item that is no kept section, given the dictionary with the deck's lines.
fn shift_elsewhere(dictionary: &Dictionary, item: Item<usize>) -> Shift {
    match item {
        Item::Section {
            name,
            address,
            length: _,
        } => dropped_shift(dictionary, name, address),
        Item::Reference { name, .. } | Item::Common { name, .. } => named_shift(dictionary, name),
        Item::Label { .. } => Shift::Known(0),
    }
}

// Works out the shifts of all items that are no kept sections.
pub(crate) fn set_shifts(
    homes: &mut [Home],
    dictionary: &Dictionary,
    items: &[OnCard<Item<usize>>],
) {
    for (home, item) in homes.iter_mut().zip(items) {
        if home.extent.is_none() {
            home.shift = shift_elsewhere(dictionary, item.what);
        }
    }
}

// The run of a text, if its section is kept.
fn run_of(text: &Text<usize>, homes: &Homes) -> Option<Run> {
    Some(Run {
        address: final_address(homes, text.section, text.address)?,
        count: text.count,
        bytes: text.bytes,
    })
}

// The relocation of a constant, if its section is kept.
fn relocation_of(constant: &Constant<usize>, homes: &Homes) -> Option<Relocation> {
    Some(Relocation {
        address: final_address(homes, constant.section, constant.address)?,
        width: constant.width,
        sign: constant.sign,
        shift: shift_of(homes, constant.target),
    })
}

// Puts what is made of each element behind the others, where something is.
fn push_made<P, X, F: Fn(&P) -> Option<X>>(into: &mut Vec<X>, from: &[OnCard<P>], make: F)
    requires room { vec_len into.old + length from.now ≤ vec_capacity into.old }
    requires callable { F.IsAlwaysCallable make }
    ensures len { vec_len into.new ≤ vec_len into.old + length from.now }
    ensures cap { vec_capacity into.new ≡ vec_capacity into.old }
{
    for x in from {
        if let Some(made) = make(&x.what) {
            into.push_reserved(made);
        }
    }
}

impl Taken {
    // One deck more, whose items have these homes.
    pub(crate) fn take(&mut self, deck: &Deck, homes: &Homes)
        requires { self.old.decks < 256 }
    {
        push_made(&mut self.runs.all, deck.texts(), |text| run_of(text, homes));
        push_made(&mut self.relocations.all, deck.constants(), |constant| {
            relocation_of(constant, homes)
        });
        self.decks += 1;
    }
}
