// Cards whose names are changed.
ghost use Rattle.std.specs.Prelude.{◌≡◌, ◌+◌, ◌≤◌, length, map};
ghost use Rattle.layer.specs.Renamed.{renaming};
ghost use Rattle.layer.specs.Changed.{Within, item_places, name_places, rename_at, edited};

use crate::pair::Pair;
use crate::pairs::rename;
use card::{CardKind, Name};

// Changes the names that stand on a card.
pub(crate) fn edit(card: &mut [u8; 80], pairs: &[Pair])
    ensures { card.new ≡ edited (map renaming pairs.entry.now) card.old }
{
    for at in name_places(card) {
        rename_at(card, *at, pairs);
    }
}

// The places of the names that are looked up.
fn name_places(card: &[u8; 80]) -> &'static [usize]
    ensures value { result.now ≡ name_places card.now }
    ensures few { length result.now ≤ 3 }
    ensures within { Within result.now }
{
    match CardKind::of(card) {
        Some(CardKind::Esd) => item_places(u16::from_be_bytes([card[10], card[11]])),
        Some(CardKind::End) => &[16],
        _ => &[],
    }
}

// The places of the items of an ESD card with that byte count.
fn item_places(bytes: u16) -> &'static [usize]
    ensures value { result.now ≡ item_places bytes }
    ensures few { length result.now ≤ 3 }
    ensures within { Within result.now }
{
    match bytes {
        16 => &[16],
        32 => &[16, 32],
        48 => &[16, 32, 48],
        _ => &[],
    }
}

// Changes the name in the eight bytes from a place on. It reads them as `card` does, whose function is not public: it asks a bound.
fn rename_at(card: &mut [u8; 80], at: usize, pairs: &[Pair])
    requires { at + 8 ≤ 80 }
    ensures { card.new ≡ rename_at (map renaming pairs.entry.now) card.old at }
{
    let mut bytes = [0; 8];
    bytes.copy_from_slice(&card[at..at + 8]);
    let new = rename(pairs, Name { bytes });
    card[at..at + 8].copy_from_slice(&new.bytes);
}
