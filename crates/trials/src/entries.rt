// What fix refuses, 28 to 31, and where a program starts.
use crate::bench::Expected::Done;
use crate::bench::Step::*;
use crate::cases::{FixCase, try_all};
use crate::punch::Card::*;
use crate::punch::Deck;
use crate::punch::Item::*;
use link::OpenNames::{Permitted, Refused};
use std::test::Fail;

const REFUSED: &[FixCase] = &[
    FixCase {
        why: "a strong name is open",
        decks: &[Deck("A", &[Esd(1, &[Sd("A", 0, 8), Er("B")]), End])],
        steps: &[(Include("A"), Done)],
        open: Refused,
        fixed: Err(28),
    },
    FixCase {
        why: "an open name that is permitted",
        decks: &[Deck("A", &[Esd(1, &[Sd("A", 0, 8), Er("B")]), End])],
        steps: &[(Include("A"), Done)],
        open: Permitted,
        fixed: Ok(0),
    },
    FixCase {
        why: "a weak name is open",
        decks: &[Deck("A", &[Esd(1, &[Sd("A", 0, 8), Wx("B")]), End])],
        steps: &[(Include("A"), Done)],
        open: Refused,
        fixed: Ok(0),
    },
    FixCase {
        why: "a weak name that became strong",
        decks: &[
            Deck("A", &[Esd(1, &[Sd("A", 0, 8), Wx("X")]), End]),
            Deck("B", &[Esd(1, &[Er("X")]), End]),
        ],
        steps: &[(Include("A"), Done), (Include("B"), Done)],
        open: Refused,
        fixed: Err(28),
    },
    FixCase {
        why: "a strong name that a common meets",
        decks: &[Deck("A", &[Esd(1, &[Sd("A", 0, 8), Er("X"), Cm("X", 8)]), End])],
        steps: &[(Include("A"), Done)],
        open: Refused,
        fixed: Ok(0),
    },
    FixCase {
        why: "no deck",
        decks: &[],
        steps: &[],
        open: Refused,
        fixed: Err(29),
    },
    FixCase {
        why: "no section",
        decks: &[Deck("A", &[Esd(1, &[Er("B"), Cm("C", 99)]), EndName("C")])],
        steps: &[(Include("A"), Done)],
        open: Permitted,
        fixed: Err(29),
    },
    FixCase {
        why: "28 comes before 29",
        decks: &[Deck("A", &[Esd(1, &[Er("B")]), End])],
        steps: &[(Include("A"), Done)],
        open: Refused,
        fixed: Err(28),
    },
    FixCase {
        why: "a common up to the end of the area",
        decks: &[Deck("A", &[Esd(1, &[Sd("A", 0, 10), Cm("X", 8)]), End])],
        steps: &[(Include("A"), Done)],
        open: Refused,
        fixed: Ok(0),
    },
    FixCase {
        why: "a common past it",
        decks: &[Deck("A", &[Esd(1, &[Sd("A", 0, 10), Cm("X", 9)]), End])],
        steps: &[(Include("A"), Done)],
        open: Refused,
        fixed: Err(30),
    },
    FixCase {
        why: "30 comes before 31",
        decks: &[Deck(
            "A",
            &[Esd(1, &[Sd("A", 0, 10), Cm("X", 9)]), EndName("NONE")],
        )],
        steps: &[(Include("A"), Done)],
        open: Refused,
        fixed: Err(30),
    },
    FixCase {
        why: "the chosen name is a common",
        decks: &[Deck("A", &[Esd(1, &[Sd("A", 0, 8), Cm("X", 8)]), End])],
        steps: &[(Include("A"), Done), (Entry("X"), Done)],
        open: Refused,
        fixed: Err(31),
    },
    FixCase {
        why: "the chosen name is open",
        decks: &[Deck("A", &[Esd(1, &[Sd("A", 0, 8), Er("X")]), End])],
        steps: &[(Include("A"), Done), (Entry("X"), Done)],
        open: Permitted,
        fixed: Err(31),
    },
    FixCase {
        why: "the chosen name is unknown, and the END's entry is not tried",
        decks: &[Deck("A", &[Esd(1, &[Sd("A", 0, 8)]), EndAt(1, 4)])],
        steps: &[(Include("A"), Done), (Entry("X"), Done)],
        open: Refused,
        fixed: Err(31),
    },
    FixCase {
        why: "the END's name is unknown",
        decks: &[Deck("A", &[Esd(1, &[Sd("A", 0, 8)]), EndName("X")])],
        steps: &[(Include("A"), Done)],
        open: Refused,
        fixed: Err(31),
    },
    FixCase {
        why: "an entry carried over to the end of the kept section",
        decks: &[
            Deck("A", &[Esd(1, &[Sd("X", 0, 8)]), End]),
            Deck("B", &[Esd(1, &[Sd("X", 0, 16)]), EndAt(1, 8)]),
        ],
        steps: &[(Include("A"), Done), (Include("B"), Done)],
        open: Refused,
        fixed: Ok(8),
    },
    FixCase {
        why: "an entry carried past it",
        decks: &[
            Deck("A", &[Esd(1, &[Sd("X", 0, 8)]), End]),
            Deck("B", &[Esd(1, &[Sd("X", 0, 16)]), EndAt(1, 9)]),
        ],
        steps: &[(Include("A"), Done), (Include("B"), Done)],
        open: Refused,
        fixed: Err(31),
    },
];

const ENTRIES: &[FixCase] = &[
    FixCase {
        why: "the section kept first",
        decks: &[Deck(
            "A",
            &[Esd(1, &[Er("B")]), Esd(2, &[Pc(64, 0), Sd("B", 0, 8)]), End],
        )],
        steps: &[(Include("A"), Done)],
        open: Refused,
        fixed: Ok(0),
    },
    FixCase {
        why: "an entry by ID moves with its section",
        decks: &[Deck("A", &[Esd(1, &[Pc(0, 5), Sd("A", 256, 8)]), EndAt(2, 260)])],
        steps: &[(Include("A"), Done)],
        open: Refused,
        fixed: Ok(12),
    },
    FixCase {
        why: "a blank address with an ID is zero",
        decks: &[Deck(
            "A",
            &[Esd(1, &[Pc(0, 5), Sd("A", 0, 8)]), EndAt(2, 0x404040)],
        )],
        steps: &[(Include("A"), Done)],
        open: Refused,
        fixed: Ok(8),
    },
    FixCase {
        why: "an entry by name is a label",
        decks: &[
            Deck("A", &[Esd(1, &[Sd("A", 0, 8)]), EndName("L")]),
            Deck("B", &[Esd(1, &[Sd("B", 256, 8), Ld("L", 258, 1)]), End]),
        ],
        steps: &[(Include("A"), Done), (Include("B"), Done)],
        open: Refused,
        fixed: Ok(10),
    },
    FixCase {
        why: "the first END that has one",
        decks: &[
            Deck("A", &[Esd(1, &[Sd("A", 0, 8)]), End]),
            Deck("B", &[Esd(1, &[Sd("B", 0, 8)]), EndName("B")]),
            Deck("C", &[Esd(1, &[Sd("C", 0, 8)]), EndAt(1, 0)]),
        ],
        steps: &[
            (Include("A"), Done),
            (Include("B"), Done),
            (Include("C"), Done),
        ],
        open: Refused,
        fixed: Ok(8),
    },
    FixCase {
        why: "the name chosen last",
        decks: &[
            Deck("A", &[Esd(1, &[Sd("A", 0, 8), Ld("L", 4, 1)]), EndAt(1, 2)]),
            Deck("B", &[Esd(1, &[Sd("B", 0, 8)]), End]),
        ],
        steps: &[
            (Entry("L"), Done),
            (Include("A"), Done),
            (Entry("B"), Done),
            (Include("B"), Done),
        ],
        open: Refused,
        fixed: Ok(8),
    },
    FixCase {
        why: "an entry carried over moves with the kept section",
        decks: &[
            Deck("A", &[Esd(1, &[Pc(0, 8), Sd("X", 32, 8)]), End]),
            Deck("B", &[Esd(1, &[Sd("X", 256, 8)]), EndAt(1, 258)]),
        ],
        steps: &[(Include("A"), Done), (Include("B"), Done)],
        open: Refused,
        fixed: Ok(10),
    },
];

#[test]
fn refused_fixes(rt: HostRuntime) -> Result<(), Fail> {
    try_all(&rt, rt.alloc(), REFUSED)
}

#[test]
fn entry_points(rt: HostRuntime) -> Result<(), Fail> {
    try_all(&rt, rt.alloc(), ENTRIES)
}
