// Layers: what they refuse, what they make of cards, and a pile of five of them under a link.
use crate::bench::Expected::*;
use crate::bench::Step::*;
use crate::bench::{Bench, Plan, open_tray, telling};
use crate::flaws::Marred;
use crate::names::name;
use crate::punch::Card::*;
use crate::punch::Item::*;
use crate::punch::{Card, Deck, ESD, SYM, TXT, add_cards, add_header, punch, tray_of};
use card::Refusal;
use layer::{Change, Join, Withhold};
use library::{Library, LibraryFault, NoCard, Tray};
use link::MapKind::*;
use link::OpenNames;
use std::alloc::{AllocError, Global};
use std::test::Fail;

// Sixteen names that are changed to Z, and as many more.
const FIRST: [&str; 16] = [
    "A", "B", "C", "D", "E", "F", "G", "H", "I", "J", "K", "L", "M", "N", "O", "P",
];

const SECOND: [&str; 16] = [
    "A2", "B2", "C2", "D2", "E2", "F2", "G2", "H2", "I2", "J2", "K2", "L2", "M2", "N2", "O2", "P2",
];

// What is tried, the pairs, a card, and what it reads as.
const CHANGES: &[(&str, &[(&str, &str)], Card, Card)] = &[
    (
        "a name of each item",
        &[("A", "X"), ("C", "Z")],
        Esd(1, &[Sd("A", 0, 8), Er("B"), Cm("C", 4)]),
        Esd(1, &[Sd("X", 0, 8), Er("B"), Cm("Z", 4)]),
    ),
    (
        "once, though the new name is another pair's old one",
        &[("A", "B"), ("B", "C")],
        Esd(1, &[Er("A"), Er("B")]),
        Esd(1, &[Er("B"), Er("C")]),
    ),
    (
        "a swap",
        &[("A", "B"), ("B", "A")],
        Esd(1, &[Er("A"), Wx("B")]),
        Esd(1, &[Er("B"), Wx("A")]),
    ),
    (
        "a label's name",
        &[("L", "M")],
        Esd(1, &[Sd("A", 0, 8), Ld("L", 0, 1)]),
        Esd(1, &[Sd("A", 0, 8), Ld("M", 0, 1)]),
    ),
    ("END's name", &[("A", "B")], EndName("A"), EndName("B")),
    (
        "a count that no ESD card has",
        &[("A", "B")],
        Plain(0x02, ESD, 15),
        Plain(0x02, ESD, 15),
    ),
    (
        "another kind of card",
        &[("A", "B")],
        Plain(0x02, TXT, 16),
        Plain(0x02, TXT, 16),
    ),
];

// What an addition answers, by the number of its refusal.
fn told(answer: Result<(), LibraryFault>) -> Option<Refusal> {
    answer.err().map(|fault| Refusal::from(fault))
}

// What the rule of that number tells of a layer.
fn broken(number: u8) -> Option<Refusal> {
    Some(telling(number, "", 0))
}

fn tray(heap: Global, decks: &[Deck]) -> Result<Tray, Fail> {
    open_tray(tray_of(heap, decks)?)
}

#[test]
fn additions_to_a_change_layer(rt: HostRuntime) -> Result<(), Fail> {
    let mut layer = Change::new(tray(rt.alloc(), &[])?);
    assert_eq!(rt; told(layer.change(name(""), name("B"))), broken(7));
    assert_eq!(rt; told(layer.change(name("B"), name(""))), broken(7));
    for old in &FIRST {
        assert_eq!(rt; told(layer.change(name(old), name("Z"))), None, "{}", *old);
        let again = if *old == "P" { 6 } else { 7 };
        assert_eq!(rt;
            told(layer.change(name(old), name("Y"))),
            broken(again),
            "{}",
            *old
        );
    }
    assert_eq!(rt; told(layer.change(name("NEW"), name("Z"))), broken(6));
    assert_eq!(rt; told(layer.change(name(""), name("Z"))), broken(6));
    Ok(())
}

#[test]
fn additions_to_a_withhold_layer(rt: HostRuntime) -> Result<(), Fail> {
    let mut layer = Withhold::new(tray(rt.alloc(), &[])?);
    assert_eq!(rt; told(layer.withhold(name(""))), broken(7));
    for held in FIRST.iter().chain(SECOND.iter()) {
        assert_eq!(rt; told(layer.withhold(name(held))), None, "{}", *held);
        let again = if *held == "P2" { 6 } else { 7 };
        assert_eq!(rt;
            told(layer.withhold(name(held))),
            broken(again),
            "{}",
            *held
        );
    }
    assert_eq!(rt; told(layer.withhold(name("NEW"))), broken(6));
    assert_eq!(rt; told(layer.withhold(name(""))), broken(6));
    Ok(())
}

// The bytes of a tray with one deck, D, of a card and END.
fn one_deck(heap: Global, card: Card) -> Result<Vec<u8>, AllocError> {
    let mut bytes = Vec::new(heap);
    add_header(&mut bytes, "D")?;
    add_cards(&mut bytes, card, 1)?;
    add_cards(&mut bytes, End, 1)?;
    Ok(bytes)
}

#[test]
fn changed_cards(rt: HostRuntime) -> Result<(), Fail> {
    for (why, pairs, before, after) in CHANGES {
        let mut layer = Change::new(open_tray(one_deck(rt.alloc(), *before)?)?);
        for (old, new) in *pairs {
            assert_eq!(rt; told(layer.change(name(old), name(new))), None, "{}", *why);
        }
        let mut card = [0; 80];
        assert_eq!(rt; layer.card(name("D"), 1, &mut card), Ok(()), "{}", *why);
        assert_eq!(rt; card, punch(*after), "{}", *why);
    }
    Ok(())
}

// A change layer that changes one name.
fn changing<L: Library>(below: L, old: &str, new: &str) -> Change<L> {
    let mut layer = Change::new(below);
    let _ = layer.change(name(old), name(new));
    layer
}

// A withhold layer that withholds one name.
fn withholding<L: Library>(below: L, held: &str) -> Withhold<L> {
    let mut layer = Withhold::new(below);
    let _ = layer.withhold(name(held));
    layer
}

// What a library answers for card i of a deck, with the card as it was where there is none to read.
fn asked<L: Library>(library: &mut L, deck: &str, i: u16) -> (Result<(), NoCard>, bool) {
    let mut card = [0xEE; 80];
    let answer = library.card(name(deck), i, &mut card);
    (answer, card == [0xEE; 80])
}

#[test]
fn flaws_through_all_layers(rt: HostRuntime) {
    let marred = Marred {
        first: punch(Plain(0x02, SYM, 0)),
    };
    let mut pile = Join {
        first: withholding(changing(marred, "A", "B"), "W"),
        second: Marred { first: punch(End) },
    };
    assert_eq!(rt; pile.count(name("X")), Some(2));
    assert_eq!(rt; asked(&mut pile, "X", 0), (Err(NoCard::Nothing), true));
    assert_eq!(rt; asked(&mut pile, "X", 1), (Ok(()), false));
    assert_eq!(rt; asked(&mut pile, "X", 2), (Err(NoCard::Flawed(7)), true));
    assert_eq!(rt; asked(&mut pile, "X", 3), (Err(NoCard::Nothing), true));
    assert_eq!(rt; pile.first.count(name("W")), None);
    assert_eq!(rt;
        asked(&mut pile.first, "W", 1),
        (Err(NoCard::Nothing), true)
    );
    assert_eq!(rt; asked(&mut pile, "W", 2), (Err(NoCard::Flawed(7)), true));
}

const FRONT: &[Deck] = &[
    Deck(
        "MAIN",
        &[Esd(1, &[Sd("MAIN", 0, 8), Er("SUB"), Er("BOTH")]), End],
    ),
    Deck("SUB", &[Esd(1, &[Sd("SUB", 0, 16)]), End]),
    Deck("BOTH", &[Esd(1, &[Sd("BOTH", 0, 4)]), End]),
];

const BACK: &[Deck] = &[
    Deck("MAIN", &[Esd(1, &[Sd("MAIN", 0, 64)]), End]),
    Deck("NEWSUB", &[Esd(1, &[Sd("OTHER", 0, 12)]), EndName("OTHER")]),
    Deck("BOTH", &[Esd(1, &[Sd("BOTH", 0, 32)]), End]),
];

// Changed, withheld, joined, withheld and changed: MAIN asks for NEWSUB, which the second tray has under another section's name;
// both trays have BOTH, and the first answers.
#[test]
fn a_pile_of_five(rt: HostRuntime) -> Result<(), Fail> {
    let pile = Join {
        first: withholding(changing(tray(rt.alloc(), FRONT)?, "SUB", "NEWSUB"), "SUB"),
        second: changing(
            withholding(tray(rt.alloc(), BACK)?, "MAIN"),
            "OTHER",
            "NEWSUB",
        ),
    };
    let mut bench = Bench::new(rt.alloc())?;
    let plan = Plan {
        why: "a pile of five",
        size: 64,
        steps: &[
            (Include("SUB"), Refused(10, "SUB", 0)),
            (Include("MAIN"), Done),
            (Call, Done),
            (Call, Done),
            (Call, NoneLeft),
        ],
        open: OpenNames::Refused,
        fixed: Some(Ok(8)),
        map: Some(&[
            ("MAIN", Section, 0, 8),
            ("NEWSUB", Section, 8, 12),
            ("BOTH", Section, 24, 4),
        ]),
    };
    bench.link(&rt, pile, plan)
}
