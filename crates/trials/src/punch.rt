// Cards and decks, punched.
use crate::names::name;
use std::alloc::{AllocError, Global};

pub(crate) const ESD: [u8; 3] = [0xC5, 0xE2, 0xC4];

pub(crate) const TXT: [u8; 3] = [0xE3, 0xE7, 0xE3];

pub(crate) const RLD: [u8; 3] = [0xD9, 0xD3, 0xC4];

pub(crate) const END: [u8; 3] = [0xC5, 0xD5, 0xC4];

pub(crate) const SYM: [u8; 3] = [0xE2, 0xE8, 0xD4];

// An item of an ESD card.
#[derive(Clone, Copy)]
pub(crate) enum Item {
    // name, input address, length
    Sd(&'static str, u32, u32),
    // input address, length
    Pc(u32, u32),
    // name, input address, the section's ID
    Ld(&'static str, u32, u32),
    Er(&'static str),
    Wx(&'static str),
    // name, length
    Cm(&'static str, u32),
    // the type's number
    Odd(u8),
}

// An item of an RLD card.
#[derive(Clone, Copy)]
pub(crate) enum Place {
    // R, P, flag, input address
    At(u16, u16, u8, u32),
    // flag and input address alone, with the R and P of the item before
    Again(u8, u32),
}

#[derive(Clone, Copy)]
pub(crate) enum Card {
    // the first ID, the items
    Esd(u16, &'static [Item]),
    // the section's ID, input address, number of bytes
    Txt(u16, u32, u16),
    Rld(&'static [Place]),
    // the byte count in place of that of the items
    RldOf(u16, &'static [Place]),
    End,
    // the entry's section ID and input address
    EndAt(u16, u32),
    // the entry's name
    EndName(&'static str),
    // the length of the section that has none
    EndLength(u32),
    // column 1, the kind and the byte count, and else blank
    Plain(u8, [u8; 3], u16),
}

// A deck of a tray: its name and its cards.
#[derive(Clone, Copy)]
pub(crate) struct Deck(pub(crate) &'static str, pub(crate) &'static [Card]);

fn blank_card() -> [u8; 80] {
    [0x40; 80]
}

// Writes bytes from a column on, the first being column 1; what would pass the last is left out.
fn put(card: &mut [u8; 80], column: usize, bytes: &[u8]) {
    let places = card.iter_mut().skip(column.saturating_sub(1));
    for (place, byte) in places.zip(bytes) {
        *place = *byte;
    }
}

fn put_half(card: &mut [u8; 80], column: usize, number: u16) {
    put(card, column, &number.to_be_bytes());
}

fn put_third(card: &mut [u8; 80], column: usize, number: u32) {
    let [_, high, middle, low] = number.to_be_bytes();
    put(card, column, &[high, middle, low]);
}

fn put_name(card: &mut [u8; 80], column: usize, text: &str) {
    put(card, column, &name(text).bytes);
}

fn plain_card(first: u8, kind: [u8; 3], count: u16) -> [u8; 80] {
    let mut card = blank_card();
    put(&mut card, 1, &[first]);
    put(&mut card, 2, &kind);
    put_half(&mut card, 11, count);
    card
}

// Name, type, input address and last field of an item.
fn item_fields(item: Item) -> (&'static str, u8, u32, u32) {
    match item {
        Item::Sd(name, address, length) => (name, 0x00, address, length),
        Item::Pc(address, length) => ("", 0x04, address, length),
        Item::Ld(name, address, section) => (name, 0x01, address, section),
        Item::Er(name) => (name, 0x02, 0x404040, 0x404040),
        Item::Wx(name) => (name, 0x0A, 0x404040, 0x404040),
        Item::Cm(name, length) => (name, 0x05, 0x404040, length),
        Item::Odd(number) => ("ODD", number, 0, 0),
    }
}

fn esd_card(first_id: u16, items: &[Item]) -> [u8; 80] {
    let mut card = plain_card(0x02, ESD, 0);
    put_half(&mut card, 15, first_id);
    for (item, column) in items.iter().zip([17usize, 33, 49]) {
        let (text, number, address, last) = item_fields(*item);
        put_name(&mut card, column, text);
        put(&mut card, column.saturating_add(8), &[number]);
        put_third(&mut card, column.saturating_add(9), address);
        put_third(&mut card, column.saturating_add(13), last);
    }
    let count = items.len().saturating_mul(16);
    put_half(&mut card, 11, u16::try_from(count).unwrap_or(u16::MAX));
    card
}

fn txt_card(id: u16, address: u32, count: u16) -> [u8; 80] {
    let mut card = plain_card(0x02, TXT, count);
    put_third(&mut card, 6, address);
    put_half(&mut card, 15, id);
    card
}

// Writes an item of an RLD card from a column on, and tells the column behind it.
fn put_place(card: &mut [u8; 80], column: usize, place: Place) -> usize {
    let (flag_column, flag, address) = match place {
        Place::At(r, p, flag, address) => {
            put_half(card, column, r);
            put_half(card, column.saturating_add(2), p);
            (column.saturating_add(4), flag, address)
        }
        Place::Again(flag, address) => (column, flag, address),
    };
    put(card, flag_column, &[flag]);
    put_third(card, flag_column.saturating_add(1), address);
    flag_column.saturating_add(4)
}

fn rld_card(count: Option<u16>, places: &[Place]) -> [u8; 80] {
    let mut card = plain_card(0x02, RLD, 0);
    let mut column = 17usize;
    for place in places {
        column = put_place(&mut card, column, *place);
    }
    let covered = u16::try_from(column.saturating_sub(17)).unwrap_or(u16::MAX);
    put_half(&mut card, 11, count.unwrap_or(covered));
    card
}

fn end_card() -> [u8; 80] {
    plain_card(0x02, END, 0x4040)
}

fn end_at(id: u16, address: u32) -> [u8; 80] {
    let mut card = end_card();
    put_third(&mut card, 6, address);
    put_half(&mut card, 15, id);
    card
}

fn end_named(text: &str) -> [u8; 80] {
    let mut card = end_card();
    put_name(&mut card, 17, text);
    card
}

fn end_long(length: u32) -> [u8; 80] {
    let mut card = end_card();
    put(&mut card, 29, &length.to_be_bytes());
    card
}

// The eighty bytes of a card.
pub(crate) fn punch(card: Card) -> [u8; 80] {
    match card {
        Card::Esd(first_id, items) => esd_card(first_id, items),
        Card::Txt(id, address, count) => txt_card(id, address, count),
        Card::Rld(places) => rld_card(None, places),
        Card::RldOf(count, places) => rld_card(Some(count), places),
        Card::End => end_card(),
        Card::EndAt(id, address) => end_at(id, address),
        Card::EndName(text) => end_named(text),
        Card::EndLength(length) => end_long(length),
        Card::Plain(first, kind, count) => plain_card(first, kind, count),
    }
}

fn header_card(text: &str) -> [u8; 80] {
    let mut card = blank_card();
    put(&mut card, 1, &[0xC4, 0xC5, 0xC3, 0xD2]);
    put_name(&mut card, 5, text);
    card
}

// Puts a header behind the bytes of a tray.
pub(crate) fn add_header(tray: &mut Vec<u8>, text: &str) -> Result<(), AllocError> {
    tray.extend_from_slice(&header_card(text))
}

// Puts a card behind the bytes of a tray, so many times.
pub(crate) fn add_cards(tray: &mut Vec<u8>, card: Card, times: u16) -> Result<(), AllocError> {
    let bytes = punch(card);
    for _ in 0..times {
        tray.extend_from_slice(&bytes)?;
    }
    Ok(())
}

// Puts a deck behind the bytes of a tray.
pub(crate) fn add_deck(tray: &mut Vec<u8>, text: &str, cards: &[Card]) -> Result<(), AllocError> {
    add_header(tray, text)?;
    for card in cards {
        add_cards(tray, *card, 1)?;
    }
    Ok(())
}

// The bytes of a tray of these decks.
pub(crate) fn tray_of(heap: Global, decks: &[Deck]) -> Result<Vec<u8>, AllocError> {
    let mut tray = Vec::new(heap);
    for Deck(text, cards) in decks {
        add_deck(&mut tray, text, cards)?;
    }
    Ok(tray)
}
