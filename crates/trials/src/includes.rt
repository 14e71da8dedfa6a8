// What the link refuses a deck for: 10 and 23 to 25.
use crate::cases::{IncludeCase, try_all};
use crate::punch::Card::*;
use crate::punch::Item::*;
use crate::punch::{Deck, SYM};
use std::test::Fail;

const CLASHES: &[IncludeCase] = &[
    IncludeCase {
        why: "a label that is a label",
        decks: &[
            Deck("A", &[Esd(1, &[Sd("A", 0, 8), Ld("X", 0, 1)]), End]),
            Deck(
                "B",
                &[Esd(1, &[Sd("B", 0, 8)]), Esd(0, &[Ld("X", 0, 1)]), End],
            ),
        ],
        size: 64,
        told: Some((23, 2)),
    },
    IncludeCase {
        why: "a label that is a section",
        decks: &[
            Deck("A", &[Esd(1, &[Sd("X", 0, 8)]), End]),
            Deck("B", &[Esd(1, &[Sd("B", 0, 8), Ld("X", 0, 1)]), End]),
        ],
        size: 64,
        told: Some((23, 1)),
    },
    IncludeCase {
        why: "a label that is a common",
        decks: &[
            Deck("A", &[Esd(1, &[Cm("X", 8)]), End]),
            Deck("B", &[Esd(1, &[Sd("B", 0, 8), Ld("X", 0, 1)]), End]),
        ],
        size: 64,
        told: Some((23, 1)),
    },
    IncludeCase {
        why: "a section that is a label",
        decks: &[
            Deck("A", &[Esd(1, &[Sd("A", 0, 8), Ld("X", 0, 1)]), End]),
            Deck(
                "B",
                &[Esd(1, &[Sd("B", 0, 8)]), Esd(2, &[Sd("X", 0, 8)]), End],
            ),
        ],
        size: 64,
        told: Some((23, 2)),
    },
    IncludeCase {
        why: "a common that is a label",
        decks: &[
            Deck("A", &[Esd(1, &[Sd("A", 0, 8), Ld("X", 0, 1)]), End]),
            Deck("B", &[Esd(1, &[Sd("B", 0, 8), Cm("X", 0)]), End]),
        ],
        size: 64,
        told: Some((23, 1)),
    },
    IncludeCase {
        why: "a label that was only referred to",
        decks: &[
            Deck("A", &[Esd(1, &[Sd("A", 0, 8), Er("X"), Wx("Y")]), End]),
            Deck(
                "B",
                &[Esd(1, &[Sd("B", 0, 8), Ld("X", 0, 1), Ld("Y", 0, 1)]), End],
            ),
        ],
        size: 64,
        told: None,
    },
    IncludeCase {
        why: "a label of a dropped section is not asked",
        decks: &[
            Deck("A", &[Esd(1, &[Sd("X", 0, 8), Ld("Y", 0, 1)]), End]),
            Deck("B", &[Esd(1, &[Sd("X", 0, 8), Ld("Y", 0, 1)]), End]),
        ],
        size: 64,
        told: None,
    },
    IncludeCase {
        why: "23 comes before 24 and 25",
        decks: &[
            Deck("A", &[Esd(1, &[Sd("A", 0, 8), Ld("X", 0, 1)]), End]),
            Deck(
                "B",
                &[
                    Esd(1, &[Sd("B", 0, 80), Cm("A", 9)]),
                    Esd(3, &[Cm("X", 0)]),
                    End,
                ],
            ),
        ],
        size: 64,
        told: Some((23, 2)),
    },
];

const COMMONS: &[IncludeCase] = &[
    IncludeCase {
        why: "a common as long as its section",
        decks: &[
            Deck("A", &[Esd(1, &[Sd("X", 0, 8)]), End]),
            Deck("B", &[Esd(1, &[Cm("X", 8)]), End]),
        ],
        size: 64,
        told: None,
    },
    IncludeCase {
        why: "a common longer than its section",
        decks: &[
            Deck("A", &[Esd(1, &[Sd("X", 0, 8)]), End]),
            Deck("B", &[Esd(1, &[Er("X")]), Esd(2, &[Cm("X", 9)]), End]),
        ],
        size: 64,
        told: Some((24, 2)),
    },
    IncludeCase {
        why: "a section as long as the largest common",
        decks: &[
            Deck("A", &[Esd(1, &[Cm("X", 12)]), End]),
            Deck("B", &[Esd(1, &[Cm("X", 4)]), End]),
            Deck("C", &[Esd(1, &[Sd("X", 0, 12)]), End]),
        ],
        size: 64,
        told: None,
    },
    IncludeCase {
        why: "a section shorter than the largest common",
        decks: &[
            Deck("A", &[Esd(1, &[Cm("X", 12)]), End]),
            Deck("B", &[Esd(1, &[Cm("X", 4)]), End]),
            Deck("C", &[Esd(1, &[Sd("X", 0, 11)]), End]),
        ],
        size: 64,
        told: Some((24, 1)),
    },
    IncludeCase {
        why: "END's length counts, and reaches",
        decks: &[
            Deck("A", &[Esd(1, &[Cm("X", 12)]), End]),
            Deck("B", &[Esd(1, &[Sd("X", 0, 0)]), EndLength(12)]),
        ],
        size: 64,
        told: None,
    },
    IncludeCase {
        why: "END's length counts, and does not reach",
        decks: &[
            Deck("A", &[Esd(1, &[Cm("X", 12)]), End]),
            Deck("B", &[Esd(1, &[Sd("X", 0, 0)]), EndLength(11)]),
        ],
        size: 64,
        told: Some((24, 1)),
    },
    IncludeCase {
        why: "a dropped section may be shorter",
        decks: &[
            Deck("A", &[Esd(1, &[Sd("X", 0, 16)]), End]),
            Deck("B", &[Esd(1, &[Cm("X", 16)]), End]),
            Deck("C", &[Esd(1, &[Sd("X", 0, 4)]), End]),
        ],
        size: 64,
        told: None,
    },
    IncludeCase {
        why: "24 comes before 25",
        decks: &[
            Deck("A", &[Esd(1, &[Sd("X", 0, 8)]), End]),
            Deck(
                "B",
                &[Esd(1, &[Sd("B", 0, 80)]), Esd(2, &[Cm("X", 9)]), End],
            ),
        ],
        size: 64,
        told: Some((24, 2)),
    },
];

const AREAS: &[IncludeCase] = &[
    IncludeCase {
        why: "a section up to the end of the area",
        decks: &[
            Deck("A", &[Esd(1, &[Sd("A", 0, 10)]), End]),
            Deck("B", &[Esd(1, &[Sd("B", 0, 8)]), End]),
        ],
        size: 24,
        told: None,
    },
    IncludeCase {
        why: "a section past it",
        decks: &[
            Deck("A", &[Esd(1, &[Sd("A", 0, 10)]), End]),
            Deck("B", &[Plain(0x02, SYM, 0), Esd(1, &[Sd("B", 0, 9)]), End]),
        ],
        size: 24,
        told: Some((25, 2)),
    },
    IncludeCase {
        why: "END's length is past it",
        decks: &[Deck(
            "A",
            &[Plain(0x02, SYM, 0), Esd(1, &[Sd("A", 0, 0)]), EndLength(25)],
        )],
        size: 24,
        told: Some((25, 2)),
    },
    IncludeCase {
        why: "a length of 32 bits",
        decks: &[Deck("A", &[Esd(1, &[Sd("A", 0, 0)]), EndLength(0xFFFFFFFF)])],
        size: 24,
        told: Some((25, 1)),
    },
    IncludeCase {
        why: "the first in item order",
        decks: &[Deck(
            "A",
            &[
                Esd(1, &[Pc(0, 16)]),
                Esd(2, &[Pc(0, 9)]),
                Esd(3, &[Pc(0, 99)]),
                End,
            ],
        )],
        size: 24,
        told: Some((25, 2)),
    },
    IncludeCase {
        why: "no length at the end of the area",
        decks: &[
            Deck("A", &[Esd(1, &[Sd("A", 0, 24)]), End]),
            Deck("B", &[Esd(1, &[Sd("B", 0, 0)]), End]),
        ],
        size: 24,
        told: None,
    },
    IncludeCase {
        why: "a dropped section takes no room",
        decks: &[
            Deck("A", &[Esd(1, &[Sd("X", 0, 24)]), End]),
            Deck("B", &[Esd(1, &[Sd("X", 0, 99)]), End]),
        ],
        size: 24,
        told: None,
    },
    IncludeCase {
        why: "commons are not asked",
        decks: &[Deck("A", &[Esd(1, &[Sd("A", 0, 24), Cm("B", 99)]), End])],
        size: 24,
        told: None,
    },
];

#[test]
fn clashes_of_labels(rt: HostRuntime) -> Result<(), Fail> {
    try_all(&rt, rt.alloc(), CLASHES)
}

#[test]
fn commons_and_sections(rt: HostRuntime) -> Result<(), Fail> {
    try_all(&rt, rt.alloc(), COMMONS)
}

#[test]
fn ends_of_the_area(rt: HostRuntime) -> Result<(), Fail> {
    try_all(&rt, rt.alloc(), AREAS)
}
