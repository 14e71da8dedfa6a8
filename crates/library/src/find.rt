// Where the deck of a name stands in a tray.
ghost use Rattle.std.specs.Prelude.{◌≡◌, true, position};
ghost use Rattle.library.specs.Decks.{is_header_of};
ghost use Rattle.library.specs.Faults.{good_sizes};
ghost use Rattle.library.specs.Found.{Finds};

use crate::cards::{deck_size, is_header_of};
use crate::stretch::Stretch;
use card::Name;

fn find_header(cards: &[[u8; 80]], name: Name) -> Option<usize>
    ensures { result ≡ position (is_header_of name.bytes) cards.now }
{
    cards.iter().position(|card| is_header_of(card, name.bytes))
}

pub(crate) fn find_deck(cards: &[[u8; 80]], name: Name) -> Option<Stretch>
    requires { good_sizes cards.now ≡ true }
    ensures { Finds result name cards.now }
{
    let first = find_header(cards, name)? + 1;
    let size = deck_size(&cards[first..]) as u16;
    Some(Stretch { first, size })
}
