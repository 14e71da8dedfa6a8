// The fields of a card: numbers with the high byte first, and names. The numbers have three functions and not one for any number
// of bytes: that one would copy the bytes behind zeros first, and cast IDs back to u16, where each of these is one call.
ghost use Rattle.std.specs.Prelude.{◌≡◌, ◌+◌, ◌<◌, ◌≤◌};
ghost use Rattle.card.specs.Numbers.{big};
ghost use Rattle.card.specs.Names.{name_at};

use crate::name::Name;

pub(crate) fn half(card: &[u8; 80], at: usize) -> u16
    requires { at + 2 ≤ 80 }
    ensures { result ≡ big 2 card.now at }
{
    u16::from_be_bytes([card[at], card[at + 1]])
}

pub(crate) fn third(card: &[u8; 80], at: usize) -> u32
    requires { at + 3 ≤ 80 }
    ensures value { result ≡ big 3 card.now at }
    ensures bound { result < 16777216 }
{
    u32::from_be_bytes([0, card[at], card[at + 1], card[at + 2]])
}

pub(crate) fn word(card: &[u8; 80], at: usize) -> u32
    requires { at + 4 ≤ 80 }
    ensures { result ≡ big 4 card.now at }
{
    u32::from_be_bytes([card[at], card[at + 1], card[at + 2], card[at + 3]])
}

// For the cards of this crate; `library` and `layer` read names of their own cards. A public function for all would have to refuse a place
// too near the end.
pub(crate) fn name_at(card: &[u8; 80], at: usize) -> Name
    requires { at + 8 ≤ 80 }
    ensures { result ≡ name_at card.now at }
{
    let mut bytes = [0; 8];
    bytes.copy_from_slice(&card[at..at + 8]);
    Name { bytes }
}
