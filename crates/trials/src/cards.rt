// What a card is refused for by itself: 12 to 17.
use crate::cases::{DeckCase, try_all};
use crate::punch::Card::*;
use crate::punch::Item::*;
use crate::punch::Place::*;
use crate::punch::{END, ESD, RLD, SYM, TXT};
use std::test::Fail;

const MOD: [u8; 3] = [0xD4, 0xD6, 0xC4];

const KINDS: &[DeckCase] = &[
    DeckCase("an END alone is a deck", &[End], None),
    DeckCase(
        "column 1 is blank",
        &[Plain(0x40, SYM, 0), End],
        Some((12, 1)),
    ),
    DeckCase(
        "no known kind",
        &[Plain(0x02, SYM, 0), Plain(0x02, MOD, 0), End],
        Some((12, 2)),
    ),
    DeckCase(
        "no known kind as last card",
        &[Plain(0x02, MOD, 0)],
        Some((12, 1)),
    ),
    DeckCase(
        "an early END with a wrong column 1",
        &[Plain(0x00, END, 0), End],
        Some((12, 1)),
    ),
    DeckCase("two END", &[Plain(0x02, SYM, 0), End, End], Some((13, 2))),
    DeckCase(
        "a last card that is no END",
        &[Esd(1, &[Sd("A", 0, 8)])],
        Some((13, 1)),
    ),
    DeckCase(
        "a SYM as last card",
        &[End, Plain(0x02, SYM, 0)],
        Some((13, 1)),
    ),
    DeckCase(
        "a SYM as last card, no END before",
        &[Esd(1, &[Sd("A", 0, 8)]), Plain(0x02, SYM, 0)],
        Some((13, 2)),
    ),
    DeckCase("13 comes before 14", &[Plain(0x02, TXT, 0)], Some((13, 1))),
    DeckCase(
        "the count of a SYM is not read",
        &[Plain(0x02, SYM, 0xFFFF), End],
        None,
    ),
];

const COUNTS: &[DeckCase] = &[
    DeckCase("ESD of 0", &[Plain(0x02, ESD, 0), End], Some((14, 1))),
    DeckCase("ESD of 15", &[Plain(0x02, ESD, 15), End], Some((14, 1))),
    DeckCase("ESD of 64", &[Plain(0x02, ESD, 64), End], Some((14, 1))),
    DeckCase(
        "ESD of blanks",
        &[Plain(0x02, ESD, 0x4040), End],
        Some((14, 1)),
    ),
    DeckCase("TXT of 0", &[Plain(0x02, TXT, 0), End], Some((14, 1))),
    DeckCase("TXT of 57", &[Plain(0x02, TXT, 57), End], Some((14, 1))),
    DeckCase("RLD of 0", &[Plain(0x02, RLD, 0), End], Some((14, 1))),
    DeckCase("RLD of 4", &[Plain(0x02, RLD, 4), End], Some((14, 1))),
    DeckCase("RLD of 10", &[Plain(0x02, RLD, 10), End], Some((14, 1))),
    DeckCase("RLD of 60", &[Plain(0x02, RLD, 60), End], Some((14, 1))),
    DeckCase(
        "on the second card",
        &[Plain(0x02, SYM, 0), Plain(0x02, ESD, 17), End],
        Some((14, 2)),
    ),
    DeckCase(
        "TXT of 1 and of 56",
        &[Esd(1, &[Sd("A", 0, 64)]), Txt(1, 0, 1), Txt(1, 8, 56), End],
        None,
    ),
    DeckCase(
        "RLD of 56",
        &[
            Esd(1, &[Sd("A", 0, 64)]),
            Rld(&[
                At(1, 1, 0x0D, 0),
                Again(0x0D, 4),
                Again(0x0D, 8),
                Again(0x0D, 12),
                Again(0x0D, 16),
                Again(0x0D, 20),
                Again(0x0D, 24),
                Again(0x0D, 28),
                Again(0x0D, 32),
                Again(0x0D, 36),
                Again(0x0D, 40),
                Again(0x0D, 44),
                Again(0x0C, 48),
            ]),
            End,
        ],
        None,
    ),
];

const ITEMS: &[DeckCase] = &[
    DeckCase(
        "a pseudo register",
        &[Esd(1, &[Odd(0x06)]), End],
        Some((15, 1)),
    ),
    DeckCase(
        "type 3",
        &[Esd(1, &[Sd("A", 0, 8), Odd(0x03)]), End],
        Some((15, 1)),
    ),
    DeckCase(
        "a blank LD",
        &[Esd(1, &[Sd("A", 0, 8)]), Esd(2, &[Ld("", 0, 1)]), End],
        Some((15, 2)),
    ),
    DeckCase(
        "a blank ER",
        &[Esd(1, &[Sd("A", 0, 8), Er("")]), End],
        Some((15, 1)),
    ),
    DeckCase(
        "a blank WX",
        &[Esd(1, &[Sd("A", 0, 8), Wx("")]), End],
        Some((15, 1)),
    ),
    DeckCase(
        "a blank SD and a blank CM",
        &[Esd(1, &[Sd("", 0, 8), Cm("", 8)]), End],
        None,
    ),
    DeckCase(
        "15 of a later item comes before 16 of the first",
        &[Esd(0, &[Sd("A", 0, 8), Odd(0x06)]), End],
        Some((15, 1)),
    ),
];

const IDS: &[DeckCase] = &[
    DeckCase("zero", &[Esd(0, &[Sd("A", 0, 8)]), End], Some((16, 1))),
    DeckCase(
        "twice",
        &[Esd(1, &[Sd("A", 0, 8)]), Esd(1, &[Sd("B", 0, 8)]), End],
        Some((16, 2)),
    ),
    DeckCase(
        "twice, by counting on",
        &[Esd(2, &[Er("A")]), Esd(1, &[Pc(0, 8), Er("B")]), End],
        Some((16, 2)),
    ),
    DeckCase("65,535", &[Esd(65535, &[Pc(0, 8)]), End], None),
    DeckCase(
        "above 65,535",
        &[Esd(65535, &[Pc(0, 8), Pc(0, 8)]), End],
        Some((16, 1)),
    ),
    DeckCase(
        "a label behind 65,535 has none",
        &[Esd(65535, &[Pc(0, 8), Ld("L", 0, 65535)]), End],
        None,
    ),
    DeckCase(
        "a card of labels gives none",
        &[Esd(1, &[Pc(0, 8)]), Esd(0, &[Ld("L", 0, 1)]), End],
        None,
    ),
    DeckCase(
        "labels between do not count",
        &[
            Esd(7, &[Ld("K", 0, 7), Sd("A", 0, 8), Ld("L", 8, 7)]),
            Esd(9, &[Er("B"), Ld("M", 0, 7), Er("C")]),
            Rld(&[At(10, 7, 0x0C, 0), At(9, 7, 0x0C, 4)]),
            Txt(7, 0, 8),
            End,
        ],
        None,
    ),
];

const CONSTANTS: &[DeckCase] = &[
    DeckCase(
        "type 0",
        &[Esd(1, &[Sd("A", 0, 16)]), Rld(&[At(1, 1, 0x0C, 4)]), End],
        None,
    ),
    DeckCase(
        "type 1",
        &[Esd(1, &[Sd("A", 0, 16)]), Rld(&[At(1, 1, 0x1C, 4)]), End],
        None,
    ),
    DeckCase(
        "type 2",
        &[Esd(1, &[Sd("A", 0, 16)]), Rld(&[At(1, 1, 0x2C, 4)]), End],
        Some((17, 2)),
    ),
    DeckCase(
        "width 3, which subtracts",
        &[Esd(1, &[Sd("A", 0, 16)]), Rld(&[At(1, 1, 0x0A, 4)]), End],
        None,
    ),
    DeckCase(
        "width 2",
        &[Esd(1, &[Sd("A", 0, 16)]), Rld(&[At(1, 1, 0x04, 4)]), End],
        Some((17, 2)),
    ),
    DeckCase(
        "width 1",
        &[Esd(1, &[Sd("A", 0, 16)]), Rld(&[At(1, 1, 0x00, 4)]), End],
        Some((17, 2)),
    ),
    DeckCase(
        "cut",
        &[
            Esd(1, &[Sd("A", 0, 16)]),
            RldOf(12, &[At(1, 1, 0x0C, 4), At(1, 1, 0x0C, 8)]),
            End,
        ],
        Some((17, 2)),
    ),
    DeckCase(
        "a repeat",
        &[
            Esd(1, &[Sd("A", 0, 16)]),
            Rld(&[At(1, 1, 0x0D, 4), Again(0x0C, 8)]),
            End,
        ],
        None,
    ),
    DeckCase(
        "a repeat at the end",
        &[Esd(1, &[Sd("A", 0, 16)]), Rld(&[At(1, 1, 0x0D, 4)]), End],
        Some((17, 2)),
    ),
    DeckCase(
        "a repeat at the end of a repeat",
        &[
            Esd(1, &[Sd("A", 0, 16)]),
            Rld(&[At(1, 1, 0x0D, 4), Again(0x0D, 8)]),
            End,
        ],
        Some((17, 2)),
    ),
    DeckCase(
        "an early card with 17 comes before a later one with 12",
        &[Rld(&[At(1, 1, 0x2C, 4)]), Plain(0x40, SYM, 0), End],
        Some((17, 1)),
    ),
];

#[test]
fn kinds_and_ends(rt: HostRuntime) -> Result<(), Fail> {
    try_all(&rt, rt.alloc(), KINDS)
}

#[test]
fn byte_counts(rt: HostRuntime) -> Result<(), Fail> {
    try_all(&rt, rt.alloc(), COUNTS)
}

#[test]
fn items(rt: HostRuntime) -> Result<(), Fail> {
    try_all(&rt, rt.alloc(), ITEMS)
}

#[test]
fn ids(rt: HostRuntime) -> Result<(), Fail> {
    try_all(&rt, rt.alloc(), IDS)
}

#[test]
fn relocation_items(rt: HostRuntime) -> Result<(), Fail> {
    try_all(&rt, rt.alloc(), CONSTANTS)
}
