// What opening a tray and making an area are refused for: 1, 2, 5 and 9.
use crate::bench::telling;
use crate::punch::Card::End;
use crate::punch::{Deck, add_cards, add_header, tray_of};
use card::Refusal;
use library::Tray;
use link::Area;
use std::alloc::{AllocError, Global};
use std::test::Fail;

// The bytes of a tray.
#[derive(Clone, Copy)]
enum Bytes {
    Decks(&'static [Deck]),
    // so many cards with no header
    Loose(u16),
    // the same without the last byte
    Cut(u16),
    // a header and so many cards behind it
    Deep(u16),
    // so many decks of one card, all of one name
    Same(u16),
}

use Bytes::*;

// What is opened, and the number that it is refused with.
const TRAYS: &[(&str, Bytes, Option<u8>)] = &[
    ("no bytes", Loose(0), None),
    ("79 bytes", Cut(1), Some(1)),
    ("159 bytes", Cut(2), Some(1)),
    ("12,001 cards", Loose(12_001), Some(1)),
    ("12,000 cards with no header", Loose(12_000), Some(2)),
    ("no header first", Loose(1), Some(2)),
    ("a deck of no cards", Deep(0), Some(2)),
    ("a deck of a card", Deep(1), None),
    ("a deck of 512 cards", Deep(512), None),
    ("a deck of 513 cards", Deep(513), Some(2)),
    ("1,024 decks of one name", Same(1_024), Some(5)),
    ("1,025 decks", Same(1_025), Some(2)),
    (
        "names apart, one blank",
        Decks(&[Deck("A", &[End]), Deck("B", &[End]), Deck("", &[End])]),
        None,
    ),
    (
        "a name twice",
        Decks(&[Deck("A", &[End]), Deck("B", &[End]), Deck("A", &[End])]),
        Some(5),
    ),
    (
        "2 comes before 5",
        Decks(&[Deck("A", &[End]), Deck("A", &[End]), Deck("B", &[])]),
        Some(2),
    ),
];

// An origin, a size, and whether they make an area.
const AREAS: &[(Option<u32>, u32, bool)] = &[
    (None, 0, true),
    (None, 1_048_576, true),
    (Some(8), 1_048_568, true),
    (Some(1_048_576), 0, true),
    (None, 4, false),
    (Some(4), 8, false),
    (Some(4), 4, false),
    (None, 1_048_584, false),
    (Some(8), 1_048_576, false),
    (Some(0xFFFF_FFF8), 8, false),
];

// Puts so many decks of one card behind the bytes of a tray, all of one name.
fn add_same(tray: &mut Vec<u8>, decks: u16) -> Result<(), AllocError> {
    for _ in 0..decks {
        add_header(tray, "D")?;
        add_cards(tray, End, 1)?;
    }
    Ok(())
}

// Puts what is not given as decks behind the bytes of a tray. Kinds of bytes are values and no closures, as they stand in a table.
fn add_bytes(tray: &mut Vec<u8>, bytes: Bytes) -> Result<(), AllocError> {
    match bytes {
        Decks(_) => Ok(()),
        Loose(cards) => add_cards(tray, End, cards),
        Cut(cards) => {
            add_cards(tray, End, cards)?;
            let _ = tray.pop();
            Ok(())
        }
        Deep(cards) => {
            add_header(tray, "D")?;
            add_cards(tray, End, cards)
        }
        Same(decks) => add_same(tray, decks),
    }
}

fn bytes_of(heap: Global, bytes: Bytes) -> Result<Vec<u8>, AllocError> {
    let mut tray = match bytes {
        Decks(decks) => tray_of(heap, decks)?,
        Loose(_) | Cut(_) | Deep(_) | Same(_) => Vec::new(heap),
    };
    add_bytes(&mut tray, bytes)?;
    Ok(tray)
}

fn opened(tray: Vec<u8>) -> Option<Refusal> {
    Tray::open(tray).err().map(|fault| Refusal::from(fault))
}

fn made(origin: Option<u32>, size: u32) -> Option<Refusal> {
    Area::new(origin, size)
        .err()
        .map(|fault| Refusal::from(fault))
}

// What the rule of that number tells where there is no deck.
fn broken(number: Option<u8>) -> Option<Refusal> {
    Some(telling(number?, "", 0))
}

#[test]
fn opening_trays(rt: HostRuntime) -> Result<(), Fail> {
    for (why, bytes, number) in TRAYS {
        let tray = bytes_of(rt.alloc(), *bytes)?;
        assert_eq!(rt; opened(tray), broken(*number), "{}", *why);
    }
    Ok(())
}

#[test]
fn making_areas(rt: HostRuntime) -> Result<(), Fail> {
    for (origin, size, good) in AREAS {
        let number = if *good { None } else { Some(9) };
        assert_eq!(rt; made(*origin, *size), broken(number), "{}", *size);
    }
    Ok(())
}
