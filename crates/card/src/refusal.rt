// What a refusal tells, and the refusals of a single card.
ghost use Rattle.std.specs.Prelude.{◌≡◌};
ghost use Rattle.card.specs.Told.{told_card, broken_at, of_deck, without_deck};

use crate::name::Name;

// The part of the product that a rule belongs to.
#[derive(Clone, Copy, PartialEq, Eq, Debug)]
pub enum Layer {
    Library,
    Card,
    Deck,
    Link,
    Board,
}

// Every refusal, whatever broke: the rule's number, the deck's name as a number, the card at fault
// (0 where no card is), the layer, and the mark of a flawed card. The number is kept as a number: it is what is told and printed,
// and no code for a fault, which are enums.
#[derive(Clone, Copy, PartialEq, Eq, Debug)]
pub struct Refusal {
    pub number: u8,
    pub deck: u64,
    pub card: u16,
    pub layer: Layer,
    pub mark: Option<u8>,
}

impl Refusal {
    // Layer and number are told side by side, so each fault gives both where a reader sees them.

    // The rule of that number, of a layer, broken by a deck as a whole.
    pub fn of_deck(layer: Layer, number: u8, deck: u64) -> Refusal
        ensures { result ≡ of_deck layer number deck }
    {
        CardAt { deck, card: 0 }.refused(layer, number)
    }

    // The rule of that number, of a layer, broken where there is no deck to name: the blank name stands for it.
    pub fn without_deck(layer: Layer, number: u8) -> Refusal
        ensures { result ≡ without_deck layer number }
    {
        Refusal::of_deck(layer, number, Name::blank().number())
    }
}

// Where a card stands: its deck's name as a number, and its place in the deck, from 1.
#[derive(Clone, Copy, PartialEq, Eq, Debug)]
pub struct CardAt {
    pub deck: u64,
    pub card: u16,
}

impl CardAt {
    // The rule of that number, of a layer, broken at this card.
    pub fn refused(self, layer: Layer, number: u8) -> Refusal
        ensures { result ≡ broken_at layer number self }
    {
        Refusal {
            number,
            deck: self.deck,
            card: self.card,
            layer,
            mark: None,
        }
    }
}

// What can be wrong with one card.
#[derive(Clone, Copy, PartialEq, Eq, Debug)]
pub enum CardFault {
    UnknownKind(CardAt),
    EndMisplaced(CardAt),
    BadCount(CardAt),
    BadItem(CardAt),
    BadId(CardAt),
    BadRelocation(CardAt),
}

impl From<CardFault> for Refusal {
    ghost from_gives = { λ fault told. told ≡ told_card fault };

    fn from(fault: CardFault) -> Refusal {
        match fault {
            CardFault::UnknownKind(at) => at.refused(Layer::Card, 12),
            CardFault::EndMisplaced(at) => at.refused(Layer::Card, 13),
            CardFault::BadCount(at) => at.refused(Layer::Card, 14),
            CardFault::BadItem(at) => at.refused(Layer::Card, 15),
            CardFault::BadId(at) => at.refused(Layer::Card, 16),
            CardFault::BadRelocation(at) => at.refused(Layer::Card, 17),
        }
    }
}
