// END cards: a deck's entry point and a length.
ghost use Rattle.std.specs.Prelude.{◌≡◌};
ghost use Rattle.card.specs.Items.{end_entry, end_length, end_address, no_id};
ghost use Rattle.card.specs.Contents.{end_says, says};

use crate::content::{Card, EndCard, Entry};
use crate::fields::{half, name_at, third, word};
use crate::refusal::CardFault;

// Whether the ID columns say that there is no ID: zero or blanks.
fn no_id(id: u16) -> bool
    ensures { result ≡ no_id id }
{
    id == 0 || id == 0x4040
}

// The entry's input address; three blanks mean zero.
fn end_address(card: &[u8; 80]) -> u32
    ensures { result ≡ end_address card.now }
{
    match third(card, 5) {
        0x404040 => 0,
        address => address,
    }
}

fn end_entry(card: &[u8; 80]) -> Option<Entry<u16>>
    ensures { result ≡ end_entry card.now }
{
    let id = half(card, 14);
    if !no_id(id) {
        return Some(Entry::Address {
            section: id,
            address: end_address(card),
        });
    }
    let name = name_at(card, 16);
    if name.is_blank() {
        None
    } else {
        Some(Entry::Named(name))
    }
}

fn end_length(card: &[u8; 80]) -> Option<u32>
    ensures { result ≡ end_length card.now }
{
    match word(card, 28) {
        0 | 0x40404040 => None,
        length => Some(length),
    }
}

// What an END card says.
pub(crate) fn end_card(card: &[u8; 80]) -> Result<Card, CardFault>
    ensures { says result ≡ end_says card.now }
{
    Ok(Card::End(EndCard {
        entry: end_entry(card),
        length: end_length(card),
    }))
}
