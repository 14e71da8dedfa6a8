// A tray of cards that was looked through, and what it remembers of the name that it was last asked for.
ghost use Rattle.std.specs.Prelude.{◌≡◌, None};
ghost use Rattle.library.specs.Decks.{cards_of};
ghost use Rattle.library.specs.Faults.{tray_fault};
ghost use Rattle.library.specs.Found.{Finds};

use crate::stretch::Stretch;
use card::Name;

#[derive(Drop)]
pub struct Tray {
    pub(crate) bytes: Vec<u8>,
    pub(crate) asked: Name,
    pub(crate) found: Option<Stretch>,
    ghost checked: { tray_fault bytes.items ≡ None },
    ghost remembered: { Finds found asked (cards_of bytes.items) },
}
