// Calls and their marks, and what refusals leave as it was.
use crate::bench::Expected::*;
use crate::bench::Step::*;
use crate::cases::{MapCase, try_all};
use crate::punch::Card::*;
use crate::punch::Item::*;
use crate::punch::{Deck, SYM};
use link::MapKind::*;
use std::test::Fail;

const CALLS: &[MapCase] = &[
    MapCase {
        why: "nothing to call",
        decks: &[
            Deck("A", &[Esd(1, &[Sd("A", 0, 8), Wx("B")]), End]),
            Deck("B", &[Esd(1, &[Sd("B", 0, 8)]), End]),
        ],
        size: 64,
        steps: &[(Call, NoneLeft), (Include("A"), Done), (Call, NoneLeft)],
        map: &[("A", Section, 0, 8), ("B", Weak, 0, 0)],
        entry: 0,
    },
    MapCase {
        why: "lines are called in their order",
        decks: &[
            Deck("A", &[Esd(1, &[Sd("A", 0, 8), Wx("X"), Er("Y")]), End]),
            Deck("B", &[Esd(1, &[Sd("B", 0, 8), Er("X")]), End]),
            Deck("X", &[Esd(1, &[Sd("X", 0, 4), Er("Z")]), End]),
            Deck("Y", &[Esd(1, &[Sd("Y", 0, 4)]), End]),
            Deck("Z", &[Esd(1, &[Sd("Z", 0, 4), Er("Y"), Wx("W")]), End]),
        ],
        size: 64,
        steps: &[
            (Include("A"), Done),
            (Include("B"), Done),
            (Call, Done),
            (Call, Done),
            (Call, Done),
            (Call, NoneLeft),
        ],
        map: &[
            ("A", Section, 0, 8),
            ("X", Section, 16, 4),
            ("Y", Section, 24, 4),
            ("B", Section, 8, 8),
            ("Z", Section, 32, 4),
            ("W", Weak, 0, 0),
        ],
        entry: 0,
    },
    MapCase {
        why: "a call refused by the library leaves its mark alone",
        decks: &[Deck("A", &[Esd(1, &[Sd("A", 0, 8), Er("B")]), End])],
        size: 64,
        steps: &[
            (Include("A"), Done),
            (Call, Refused(10, "B", 0)),
            (Call, NoneLeft),
        ],
        map: &[("A", Section, 0, 8), ("B", Strong, 0, 0)],
        entry: 0,
    },
    MapCase {
        why: "a call refused by a card goes on to the next name",
        decks: &[
            Deck("A", &[Esd(1, &[Sd("A", 0, 8), Er("B"), Er("C")]), End]),
            Deck("B", &[Esd(1, &[Sd("B", 0, 8)]), Plain(0x40, SYM, 0), End]),
            Deck("C", &[Esd(1, &[Sd("C", 0, 8), Er("B")]), End]),
        ],
        size: 64,
        steps: &[
            (Include("A"), Done),
            (Call, Refused(12, "B", 2)),
            (Call, Done),
            (Call, NoneLeft),
        ],
        map: &[
            ("A", Section, 0, 8),
            ("B", Strong, 0, 0),
            ("C", Section, 8, 8),
        ],
        entry: 0,
    },
    MapCase {
        why: "a call refused by the link",
        decks: &[
            Deck("A", &[Esd(1, &[Sd("A", 0, 8), Er("B")]), End]),
            Deck(
                "B",
                &[Esd(1, &[Sd("B", 0, 8)]), Esd(2, &[Sd("C", 0, 999)]), End],
            ),
        ],
        size: 64,
        steps: &[
            (Include("A"), Done),
            (Call, Refused(25, "B", 2)),
            (Call, NoneLeft),
        ],
        map: &[("A", Section, 0, 8), ("B", Strong, 0, 0)],
        entry: 0,
    },
    MapCase {
        why: "a deck that does not define the name is called once",
        decks: &[
            Deck("A", &[Esd(1, &[Sd("A", 0, 8), Er("B")]), End]),
            Deck("B", &[Esd(1, &[Sd("C", 0, 8)]), End]),
        ],
        size: 64,
        steps: &[(Include("A"), Done), (Call, Done), (Call, NoneLeft)],
        map: &[
            ("A", Section, 0, 8),
            ("B", Strong, 0, 0),
            ("C", Section, 8, 8),
        ],
        entry: 0,
    },
];

const REFUSALS: &[MapCase] = &[
    MapCase {
        why: "a refused include changes no line",
        decks: &[
            Deck(
                "A",
                &[Esd(1, &[Sd("A", 0, 8), Wx("X"), Cm("C", 8)]), EndAt(1, 4)],
            ),
            Deck(
                "B",
                &[
                    Esd(1, &[Sd("B", 0, 8), Er("X"), Er("Y")]),
                    Esd(4, &[Cm("A", 9)]),
                    EndAt(1, 0),
                ],
            ),
            Deck(
                "D",
                &[
                    Esd(1, &[Sd("X", 0, 8), Pc(0, 999), Cm("C", 80)]),
                    EndAt(1, 0),
                ],
            ),
            Deck("E", &[Esd(1, &[Sd("E", 0, 8)]), End]),
        ],
        size: 64,
        steps: &[
            (Include("A"), Done),
            (Include("B"), Refused(24, "B", 2)),
            (Include("D"), Refused(25, "D", 1)),
            (Include("NONE"), Refused(10, "NONE", 0)),
            (Include("E"), Done),
        ],
        map: &[
            ("A", Section, 0, 8),
            ("X", Weak, 0, 0),
            ("C", Common, 16, 8),
            ("E", Section, 8, 8),
        ],
        entry: 4,
    },
    MapCase {
        why: "a blank entry leaves the name chosen before",
        decks: &[Deck("A", &[Esd(1, &[Sd("A", 0, 8), Ld("L", 6, 1)]), EndAt(1, 4)])],
        size: 64,
        steps: &[
            (Include("A"), Done),
            (Entry("L"), Done),
            (Entry(""), Refused(27, "", 0)),
        ],
        map: &[("A", Section, 0, 8), ("L", Label, 6, 0)],
        entry: 6,
    },
];

#[test]
fn calls_and_marks(rt: HostRuntime) -> Result<(), Fail> {
    try_all(&rt, rt.alloc(), CALLS)
}

#[test]
fn refusals_change_nothing(rt: HostRuntime) -> Result<(), Fail> {
    try_all(&rt, rt.alloc(), REFUSALS)
}
