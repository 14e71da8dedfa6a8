// A library that holds nothing under some names.
ghost use Rattle.std.specs.Prelude.{◌≡◌, []};
ghost use Rattle.library.specs.Answers.{answer_by};
ghost use Rattle.layer.specs.Additions.{table_after};
ghost use Rattle.layer.specs.Withheld.{among, bad_name, withhold_fault, without, without_sound};

use crate::table::add;
use arrayvec::ArrayVec;
use card::Name;
use library::{Library, LibraryFault, NoCard};

const MAX_NAMES: usize = 32;

// A name of the table has nothing, every other name what it has below. Made and given back as `Change` is; the reason stands there.
#[derive(Drop)]
pub struct Withhold<L> {
    below: L,
    names: ArrayVec<Name, MAX_NAMES>,
}

impl<L: Library> Withhold<L> {
    // Withholds nothing yet.
    pub fn new(below: L) -> Withhold<L>
        ensures below { result.below ≡ below }
        ensures names { result.names.items ≡ [] }
    {
        Withhold {
            below,
            names: ArrayVec::new(),
        }
    }

    fn withholds(&self, name: Name) -> bool
        ensures { result ≡ among name self.now.names.items }
    {
        self.names.iter().any(|other| *other == name)
    }

    fn is_bad(&self, name: Name) -> bool
        ensures { result ≡ bad_name self.now.names.items name }
    {
        name.is_blank() || self.withholds(name)
    }

    // Withholds one name more.
    pub fn withhold(&mut self, name: Name) -> Result<(), LibraryFault>
        ensures below { self.new.below ≡ self.old.below }
        ensures answer { result ≡ answer_by (withhold_fault self.old.names.items name) }
        ensures names { self.new.names.items ≡ table_after (withhold_fault self.old.names.items name) self.old.names.items name }
    {
        let bad = self.is_bad(name);
        add(&mut self.names, name, bad)
    }

    // Gives the library below back.
    pub fn into_below(self) -> L
        ensures { result ≡ self.below }
    {
        let Withhold { below, names: _ } = self;
        below
    }
}

impl<L: Library> Library for Withhold<L> {
    ghost meaning = { λ s name. without s.names.items name (L.Library.meaning s.below name) };

    ghost sound = { λ s name. without_sound s.names.items name (L.Library.meaning s.below name) (L.Library.sound s.below name) };

    fn count(&mut self, name: Name) -> Option<u16> {
        if self.withholds(name) {
            return None;
        }
        self.below.count(name)
    }

    fn card(&mut self, name: Name, i: u16, into: &mut [u8; 80]) -> Result<(), NoCard> {
        if self.withholds(name) {
            return Err(NoCard::Nothing);
        }
        self.below.card(name, i, into)
    }
}
