// A library in whose cards some names are changed.
ghost use Rattle.std.specs.Prelude.{◌≡◌, []};
ghost use Rattle.library.specs.Answers.{answer_by};
ghost use Rattle.layer.specs.Additions.{table_after};
ghost use Rattle.layer.specs.Renamed.{renamings, renamings_eight, change_fault};
ghost use Rattle.layer.specs.Changed.{changed, changed_sound};

use crate::edit::edit;
use crate::pair::Pair;
use crate::pairs::is_bad;
use crate::table::add;
use arrayvec::ArrayVec;
use card::Name;
use library::{Library, LibraryFault, NoCard};

const MAX_PAIRS: usize = 16;

// Its cards come with each old name of the table changed to its new name. `Withhold` is made and given back alike; one struct under
// both would put a second value between a layer and its table.
#[derive(Drop)]
pub struct Change<L> {
    below: L,
    pairs: ArrayVec<Pair, MAX_PAIRS>,
}

impl<L: Library> Change<L> {
    // Changes nothing yet.
    pub fn new(below: L) -> Change<L>
        ensures below { result.below ≡ below }
        ensures pairs { renamings result.pairs ≡ [] }
    {
        Change {
            below,
            pairs: ArrayVec::new(),
        }
    }

    // Changes one name more.
    pub fn change(&mut self, old: Name, new: Name) -> Result<(), LibraryFault>
        ensures below { self.new.below ≡ self.old.below }
        ensures answer { result ≡ answer_by (change_fault (renamings self.old.pairs) (record { old = old; new = new })) }
        ensures pairs { renamings self.new.pairs ≡ table_after (change_fault (renamings self.old.pairs) (record { old = old; new = new })) (renamings self.old.pairs) (record { old = old; new = new }) }
    {
        let bad = is_bad(self.pairs.as_slice(), old, new);
        add(&mut self.pairs, Pair { old, new }, bad)
    }

    // Gives the library below back.
    pub fn into_below(self) -> L
        ensures { result ≡ self.below }
    {
        let Change { below, pairs: _ } = self;
        below
    }
}

impl<L: Library> Library for Change<L> {
    ghost meaning = { λ s name. changed (renamings s.pairs) (L.Library.meaning s.below name) };

    ghost sound = { λ s name. changed_sound (renamings s.pairs) (renamings_eight s.pairs) (L.Library.meaning s.below name) (L.Library.sound s.below name) };

    fn count(&mut self, name: Name) -> Option<u16> {
        self.below.count(name)
    }

    fn card(&mut self, name: Name, i: u16, into: &mut [u8; 80]) -> Result<(), NoCard> {
        self.below.card(name, i, into)?;
        edit(into, self.pairs.as_slice());
        Ok(())
    }
}
