// What can be wrong with a library, or with what is asked of it.
ghost use Rattle.std.specs.Prelude.{◌≡◌};
ghost use Rattle.library.specs.Told.{told_library};

use card::{CardAt, Layer, Refusal};

#[derive(Clone, Copy, PartialEq, Eq, Debug)]
pub enum LibraryFault {
    BadTrayLength,
    BadTrayDecks,
    NameTwice,
    // A layer's table has no place left.
    TableFull,
    // A name for a layer is blank, or there already.
    BadName,
    NoSuchDeck { deck: u64 },
    FlawedCard { at: CardAt, mark: u8 },
}

impl From<LibraryFault> for Refusal {
    ghost from_gives = { λ fault told. told ≡ told_library fault };

    fn from(fault: LibraryFault) -> Refusal {
        match fault {
            LibraryFault::BadTrayLength => Refusal::without_deck(Layer::Library, 1),
            LibraryFault::BadTrayDecks => Refusal::without_deck(Layer::Library, 2),
            LibraryFault::NameTwice => Refusal::without_deck(Layer::Library, 5),
            LibraryFault::TableFull => Refusal::without_deck(Layer::Library, 6),
            LibraryFault::BadName => Refusal::without_deck(Layer::Library, 7),
            LibraryFault::NoSuchDeck { deck } => Refusal::of_deck(Layer::Library, 10, deck),
            LibraryFault::FlawedCard { at, mark } => Refusal {
                mark: Some(mark),
                ..at.refused(Layer::Library, 11)
            },
        }
    }
}
