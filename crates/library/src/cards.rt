// Cards and headers in a tray.
ghost use Rattle.std.specs.Prelude.{◌≡◌, length};
ghost use Rattle.library.specs.Decks.{cards_of, is_header, name_on, is_header_of, deck};

// The cards that a tray's bytes make.
pub(crate) fn cards_of(bytes: &[u8]) -> &[[u8; 80]]
    ensures { result.now ≡ cards_of bytes.now }
{
    let (cards, _) = bytes.as_chunks();
    cards
}

pub(crate) fn is_header(card: &[u8; 80]) -> bool
    ensures { result ≡ is_header card.now }
{
    card[0] == 0xC4 && card[1] == 0xC5 && card[2] == 0xC3 && card[3] == 0xD2
}

// The name on a header. `card` reads names at any place, for its own cards; a public function for both would have to refuse a place
// too near the end.
pub(crate) fn name_on(card: &[u8; 80]) -> [u8; 8]
    ensures { result ≡ name_on card.now }
{
    let mut name = [0; 8];
    name.copy_from_slice(&card[4..12]);
    name
}

pub(crate) fn is_header_of(card: &[u8; 80], name: [u8; 8]) -> bool
    ensures { result ≡ is_header_of name card.now }
{
    is_header(card) && name_on(card) == name
}

// How many cards stand before the next header.
pub(crate) fn deck_size(cards: &[[u8; 80]]) -> usize
    ensures { result ≡ length (deck cards.now) }
{
    cards.iter().take_while(|card| !is_header(card)).count()
}
