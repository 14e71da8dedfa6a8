// Reading a card.
ghost use Rattle.std.specs.Prelude.{◌≡◌};
ghost use Rattle.card.specs.Kinds.{kind_of};
ghost use Rattle.card.specs.Contents.{card_says, kind_says, misplaced, says};

use crate::content::Card;
use crate::end::end_card;
use crate::esd::esd_card;
use crate::kind::CardKind;
use crate::refusal::{CardAt, CardFault};
use crate::rld::rld_card;
use crate::txt::txt_card;

// The kind of a card; none where column 1 is not hex 02 or columns 2 to 4 spell no kind.
fn kind_of(card: &[u8; 80]) -> Option<CardKind>
    ensures { result ≡ kind_of card.now }
{
    if card[0] != 0x02 {
        return None;
    }
    CardKind::of(card)
}

// END is the last card of a deck, and no other is.
fn is_misplaced(kind: CardKind, last: bool) -> bool
    ensures { result ≡ misplaced kind last }
{
    match kind {
        CardKind::End => !last,
        CardKind::Esd | CardKind::Txt | CardKind::Rld | CardKind::Sym => last,
    }
}

// What a card of a known kind says.
fn content_of(kind: CardKind, card: &[u8; 80], place: CardAt) -> Result<Card, CardFault>
    ensures { says result ≡ kind_says kind card.now place }
{
    match kind {
        CardKind::Esd => esd_card(card, place),
        CardKind::Txt => txt_card(card, place),
        CardKind::Rld => rld_card(card, place),
        CardKind::End => end_card(card),
        CardKind::Sym => Ok(Card::Sym),
    }
}

// What a card says, where it stands, and whether it is its deck's last.
pub fn parse(card: [u8; 80], place: CardAt, last: bool) -> Result<Card, CardFault>
    ensures { says result ≡ card_says card place last }
{
    let Some(kind) = kind_of(&card) else {
        return Err(CardFault::UnknownKind(place));
    };
    if is_misplaced(kind, last) {
        return Err(CardFault::EndMisplaced(place));
    }
    content_of(kind, &card, place)
}
