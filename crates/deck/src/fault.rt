// Why a deck is not taken, as far as the deck alone decides it.
ghost use Rattle.std.specs.Prelude.{◌≡◌};
ghost use Rattle.deck.specs.declared.fault.DeckFault.TheVariants.{Library, Card};
ghost use Rattle.deck.specs.Told.{told_deck};

use card::{CardAt, CardFault, Layer, Refusal};
use library::LibraryFault;

#[derive(Clone, Copy, PartialEq, Eq, Debug)]
pub enum DeckFault {
    Library(LibraryFault),
    Card(CardFault),
    UnknownId(CardAt),
    UnclearLength { deck: u64 },
    OutsideSection(CardAt),
    ConstantsOverlap(CardAt),
    NameTwice(CardAt),
}

impl From<DeckFault> for Refusal {
    ghost from_gives = { λ fault told. told ≡ told_deck fault };

    fn from(fault: DeckFault) -> Refusal {
        match fault {
            DeckFault::Library(fault) => Refusal::from(fault),
            DeckFault::Card(fault) => Refusal::from(fault),
            DeckFault::UnknownId(at) => at.refused(Layer::Deck, 18),
            DeckFault::UnclearLength { deck } => Refusal::of_deck(Layer::Deck, 19, deck),
            DeckFault::OutsideSection(at) => at.refused(Layer::Deck, 20),
            DeckFault::ConstantsOverlap(at) => at.refused(Layer::Deck, 21),
            DeckFault::NameTwice(at) => at.refused(Layer::Deck, 22),
        }
    }
}

impl From<LibraryFault> for DeckFault {
    ghost from_gives = { λ x y. y ≡ Library x };

    fn from(fault: LibraryFault) -> DeckFault {
        DeckFault::Library(fault)
    }
}

impl From<CardFault> for DeckFault {
    ghost from_gives = { λ x y. y ≡ Card x };

    fn from(fault: CardFault) -> DeckFault {
        DeckFault::Card(fault)
    }
}
