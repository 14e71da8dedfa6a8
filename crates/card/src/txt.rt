// TXT cards: bytes of a section.
ghost use Rattle.std.specs.Prelude.{◌≡◌};
ghost use Rattle.card.specs.Contents.{txt_says, says, good_txt_count};

use crate::content::{Card, Text};
use crate::fields::{half, third};
use crate::refusal::{CardAt, CardFault};

fn good_count(count: u16) -> bool
    ensures { result ≡ good_txt_count count }
{
    count >= 1 && count <= 56
}

// What a TXT card says.
pub(crate) fn txt_card(card: &[u8; 80], place: CardAt) -> Result<Card, CardFault>
    ensures { says result ≡ txt_says card.now place }
{
    let count = half(card, 10);
    if !good_count(count) {
        return Err(CardFault::BadCount(place));
    }
    let mut bytes = [0; 56];
    bytes.copy_from_slice(&card[16..72]);
    Ok(Card::Txt(Text {
        section: half(card, 14),
        address: third(card, 5),
        count,
        bytes,
    }))
}
