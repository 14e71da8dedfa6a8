// An open tray answers as a library.
ghost use Rattle.std.specs.Prelude.{◌≡◌, Some, None, MatchResult};
ghost use Rattle.library.specs.Decks.{cards_of};
ghost use Rattle.library.specs.Faults.{tray_fault};
ghost use Rattle.library.specs.Found.{Finds};
ghost use Rattle.library.specs.Held.{held_in};
ghost use Rattle.library.specs.Sound.{held_sound};

use crate::cards::cards_of;
use crate::check::check;
use crate::find::find_deck;
use crate::stretch::Stretch;
use crate::{Library, LibraryFault, NoCard, Tray};
use card::Name;

impl Tray {
    // Takes the bytes of a tray, or tells the first rule that they break.
    pub fn open(bytes: Vec<u8>) -> Result<Tray, LibraryFault>
        ensures { MatchResult result (λ t. (tray_fault bytes.items ≡ None) × (t.bytes ≡ bytes)) (λ f. tray_fault bytes.items ≡ Some f) }
    {
        check(bytes.as_slice())?;
        let asked = Name::blank();
        let found = find_deck(cards_of(bytes.as_slice()), asked);
        Ok(Tray {
            bytes,
            asked,
            found,
        })
    }

    // Gives the bytes back.
    pub fn into_bytes(self) -> Vec<u8>
        ensures { result ≡ self.bytes }
    {
        let Tray {
            bytes,
            asked: _,
            found: _,
        } = self;
        bytes
    }

    // Turns to a name, and tells where its deck stands. Only a name other than the last is looked for.
    fn seek(&mut self, name: Name) -> Option<Stretch>
        ensures same { self.new.bytes ≡ self.old.bytes }
        ensures found { Finds result name (cards_of self.old.bytes.items) }
    {
        if self.asked == name {
            return self.found;
        }
        let found = find_deck(cards_of(self.bytes.as_slice()), name);
        self.asked = name;
        self.found = found;
        found
    }
}

impl Library for Tray {
    ghost meaning = { λ s. held_in s.bytes.items };

    ghost sound = { λ s name. held_sound s.bytes.items name s.checked };

    fn count(&mut self, name: Name) -> Option<u16> {
        let found = self.seek(name)?;
        Some(found.size)
    }

    fn card(&mut self, name: Name, i: u16, into: &mut [u8; 80]) -> Result<(), NoCard> {
        let Some(found) = self.seek(name) else {
            return Err(NoCard::Nothing);
        };
        if !found.has(i) {
            return Err(NoCard::Nothing);
        }
        let cards = cards_of(self.bytes.as_slice());
        *into = cards[found.first + i as usize - 1];
        Ok(())
    }
}
