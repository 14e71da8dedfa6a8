// Maps of whole programs.
use crate::bench::Expected::*;
use crate::bench::Step::*;
use crate::cases::{MapCase, try_all};
use crate::punch::Card::*;
use crate::punch::Item::*;
use crate::punch::Place::*;
use crate::punch::{Card, Deck};
use link::MapKind::*;
use std::test::Fail;

const WORKED: &[MapCase] = &[
    MapCase {
        why: "a main section, a subprogram whose END gives its length, and a common",
        decks: &[
            Deck(
                "MAIN",
                &[
                    Esd(1, &[Sd("MAIN", 0, 10), Er("SUB")]),
                    Txt(1, 0, 10),
                    Rld(&[At(2, 1, 0x0C, 4)]),
                    End,
                ],
            ),
            Deck(
                "SUB",
                &[
                    Esd(1, &[Sd("SUB", 0, 0), Ld("SUBX", 4, 1), Cm("BUF", 12)]),
                    Txt(1, 0, 5),
                    EndLength(5),
                ],
            ),
        ],
        size: 64,
        steps: &[(Include("MAIN"), Done), (Call, Done), (Call, NoneLeft)],
        map: &[
            ("MAIN", Section, 0, 10),
            ("SUB", Section, 16, 5),
            ("SUBX", Label, 20, 0),
            ("BUF", Common, 24, 12),
        ],
        entry: 0,
    },
    MapCase {
        why: "sections of length zero lie at one address",
        decks: &[Deck(
            "A",
            &[
                Esd(1, &[Sd("A", 0, 4), Sd("B", 0, 0), Pc(0, 0)]),
                Esd(4, &[Sd("C", 0, 4)]),
                End,
            ],
        )],
        size: 64,
        steps: &[(Include("A"), Done)],
        map: &[
            ("A", Section, 0, 4),
            ("B", Section, 8, 0),
            ("", Private, 8, 0),
            ("C", Section, 8, 4),
        ],
        entry: 0,
    },
    MapCase {
        why: "END's length is that of the one section without",
        decks: &[Deck(
            "A",
            &[
                Esd(1, &[Sd("A", 0, 4), Sd("B", 0, 0), Sd("C", 0, 4)]),
                EndLength(9),
            ],
        )],
        size: 64,
        steps: &[(Include("A"), Done)],
        map: &[
            ("A", Section, 0, 4),
            ("B", Section, 8, 9),
            ("C", Section, 24, 4),
        ],
        entry: 0,
    },
    MapCase {
        why: "the same deck again: named sections are dropped, private ones kept",
        decks: &[Deck(
            "A",
            &[
                Esd(1, &[Pc(0, 4), Sd("A", 0, 8), Ld("L", 2, 2)]),
                Esd(3, &[Er("M")]),
                End,
            ],
        )],
        size: 64,
        steps: &[(Include("A"), Done), (Include("A"), Done)],
        map: &[
            ("", Private, 0, 4),
            ("A", Section, 8, 8),
            ("L", Label, 10, 0),
            ("M", Strong, 0, 0),
            ("", Private, 16, 4),
        ],
        entry: 0,
    },
    MapCase {
        why: "a dropped section's labels get no line",
        decks: &[
            Deck("A", &[Esd(1, &[Sd("X", 0, 8), Ld("L", 2, 1)]), End]),
            Deck(
                "B",
                &[Esd(1, &[Sd("X", 0, 16), Ld("L", 4, 1), Ld("M", 9, 1)]), End],
            ),
        ],
        size: 64,
        steps: &[(Include("A"), Done), (Include("B"), Done)],
        map: &[("X", Section, 0, 8), ("L", Label, 2, 0)],
        entry: 0,
    },
    MapCase {
        why: "commons of one name are one, of the largest length, in line order behind the sections",
        decks: &[
            Deck(
                "A",
                &[Esd(1, &[Cm("X", 12), Sd("A", 0, 5), Cm("", 3)]), End],
            ),
            Deck(
                "B",
                &[
                    Esd(1, &[Cm("Y", 1), Sd("B", 0, 5), Cm("X", 20)]),
                    Esd(4, &[Cm("", 1)]),
                    End,
                ],
            ),
        ],
        size: 64,
        steps: &[(Include("A"), Done), (Include("B"), Done)],
        map: &[
            ("X", Common, 16, 20),
            ("A", Section, 0, 5),
            ("", Common, 40, 3),
            ("Y", Common, 48, 1),
            ("B", Section, 8, 5),
        ],
        entry: 0,
    },
    MapCase {
        why: "a section takes the line of the common of its name over, and an open name becomes a label",
        decks: &[
            Deck(
                "A",
                &[
                    Esd(1, &[Sd("A", 0, 8), Cm("X", 8), Cm("Y", 8)]),
                    Esd(4, &[Er("L"), Wx("W")]),
                    End,
                ],
            ),
            Deck("B", &[Esd(1, &[Sd("X", 256, 16), Ld("L", 260, 1)]), End]),
        ],
        size: 64,
        steps: &[(Include("A"), Done), (Include("B"), Done)],
        map: &[
            ("A", Section, 0, 8),
            ("X", Section, 8, 16),
            ("Y", Common, 24, 8),
            ("L", Label, 12, 0),
            ("W", Weak, 0, 0),
        ],
        entry: 0,
    },
];

const COBSUB: &[Card] = &[
    Esd(1, &[Sd("COBSUB", 0, 0x33A), Er("ILBODSP0"), Er("ILBOSTP0")]),
    Esd(4, &[Er("ILBOSTP1")]),
    Rld(&[
        At(3, 1, 0x0C, 0x250),
        At(2, 1, 0x0C, 0x254),
        At(4, 1, 0x0C, 0x258),
    ]),
    End,
];

const SUB1: &[Card] = &[
    Esd(1, &[Pc(0, 0xEF), Ld("SUB1", 0, 1), Er("COBSUB")]),
    Rld(&[At(2, 1, 0x0C, 0xD8)]),
    End,
];

const MAINMOD: &[Card] = &[
    Esd(1, &[Sd("MAINMOD", 0, 0x166), Er("SUB1")]),
    Rld(&[At(2, 1, 0x0C, 0x2C)]),
    EndAt(1, 0),
];

const MODULE: &[Deck] = &[
    Deck("COBSUB", COBSUB),
    Deck("SUB1", SUB1),
    Deck("MAINMOD", MAINMOD),
    Deck("ILBODSP0", &[Esd(1, &[Sd("ILBODSP0", 0, 0x5E2)]), End]),
    Deck(
        "ILBOSTP0",
        &[
            Esd(1, &[Sd("ILBOSTP0", 0, 0x35), Ld("ILBOSTP1", 0x16, 1)]),
            End,
        ],
    ),
];

// The module map of 'Linkage Editor and Loader': three modules, and two that are called from the library;
// once in an area of the module's total length, and once in one that is 8 bytes shorter.
const MODULE_MAP: &[MapCase] = &[
    MapCase {
        why: "the module map",
        decks: MODULE,
        size: 0xBB8,
        steps: &[
            (Include("COBSUB"), Done),
            (Include("SUB1"), Done),
            (Include("MAINMOD"), Done),
            (Call, Done),
            (Call, Done),
            (Call, NoneLeft),
        ],
        map: &[
            ("COBSUB", Section, 0x000, 0x33A),
            ("ILBODSP0", Section, 0x598, 0x5E2),
            ("ILBOSTP0", Section, 0xB80, 0x35),
            ("ILBOSTP1", Label, 0xB96, 0),
            ("", Private, 0x340, 0xEF),
            ("SUB1", Label, 0x340, 0),
            ("MAINMOD", Section, 0x430, 0x166),
        ],
        entry: 0x430,
    },
    MapCase {
        why: "the module map without room for its last section",
        decks: MODULE,
        size: 0xBB0,
        steps: &[
            (Include("COBSUB"), Done),
            (Include("SUB1"), Done),
            (Include("MAINMOD"), Done),
            (Call, Done),
            (Call, Refused(25, "ILBOSTP0", 1)),
            (Call, Refused(10, "ILBOSTP1", 0)),
            (Call, NoneLeft),
        ],
        map: &[
            ("COBSUB", Section, 0x000, 0x33A),
            ("ILBODSP0", Section, 0x598, 0x5E2),
            ("ILBOSTP0", Strong, 0, 0),
            ("ILBOSTP1", Strong, 0, 0),
            ("", Private, 0x340, 0xEF),
            ("SUB1", Label, 0x340, 0),
            ("MAINMOD", Section, 0x430, 0x166),
        ],
        entry: 0x430,
    },
];

#[test]
fn small_programs(rt: HostRuntime) -> Result<(), Fail> {
    try_all(&rt, rt.alloc(), WORKED)
}

#[test]
fn module_map(rt: HostRuntime) -> Result<(), Fail> {
    try_all(&rt, rt.alloc(), MODULE_MAP)
}
