// Why a link says no.
ghost use Rattle.std.specs.Prelude.{◌≡◌};
ghost use Rattle.link.specs.declared.fault.LinkFault.TheVariants.{Deck};
ghost use Rattle.link.specs.Told.{told_link};

use card::{CardAt, Layer, Refusal};
use deck::DeckFault;

#[derive(Clone, Copy, PartialEq, Eq, Debug)]
pub enum LinkFault {
    Deck(DeckFault),
    BadArea,
    LabelClash(CardAt),
    CommonTooLong(CardAt),
    OutsideArea(CardAt),
    TooMany { deck: u64 },
    BlankEntry,
    OpenName,
    NoSection,
    CommonOutsideArea,
    BadEntry,
}

impl From<LinkFault> for Refusal {
    ghost from_gives = { λ fault told. told ≡ told_link fault };

    fn from(fault: LinkFault) -> Refusal {
        match fault {
            LinkFault::Deck(fault) => Refusal::from(fault),
            LinkFault::BadArea => Refusal::without_deck(Layer::Link, 9),
            LinkFault::LabelClash(at) => at.refused(Layer::Link, 23),
            LinkFault::CommonTooLong(at) => at.refused(Layer::Link, 24),
            LinkFault::OutsideArea(at) => at.refused(Layer::Link, 25),
            LinkFault::TooMany { deck } => Refusal::of_deck(Layer::Link, 26, deck),
            LinkFault::BlankEntry => Refusal::without_deck(Layer::Link, 27),
            LinkFault::OpenName => Refusal::without_deck(Layer::Link, 28),
            LinkFault::NoSection => Refusal::without_deck(Layer::Link, 29),
            LinkFault::CommonOutsideArea => Refusal::without_deck(Layer::Link, 30),
            LinkFault::BadEntry => Refusal::without_deck(Layer::Link, 31),
        }
    }
}

impl From<DeckFault> for LinkFault {
    ghost from_gives = { λ x y. y ≡ Deck x };

    fn from(fault: DeckFault) -> LinkFault {
        LinkFault::Deck(fault)
    }
}
