// What a deck is refused for as a whole: 18 to 22.
use crate::cases::{DeckCase, try_all};
use crate::punch::Card::*;
use crate::punch::Item::*;
use crate::punch::Place::*;
use std::test::Fail;

const USES: &[DeckCase] = &[
    DeckCase(
        "text before its section",
        &[Txt(1, 0, 4), Esd(1, &[Sd("A", 0, 8)]), End],
        None,
    ),
    DeckCase(
        "text of no item",
        &[Esd(1, &[Sd("A", 0, 8)]), Txt(2, 0, 4), End],
        Some((18, 2)),
    ),
    DeckCase(
        "text of a common",
        &[Esd(1, &[Sd("A", 0, 8), Cm("B", 8)]), Txt(2, 0, 4), End],
        Some((18, 2)),
    ),
    DeckCase(
        "text of a reference",
        &[Esd(1, &[Sd("A", 0, 8), Er("B")]), Txt(2, 0, 4), End],
        Some((18, 2)),
    ),
    DeckCase(
        "R is a section, a reference or a common",
        &[
            Esd(1, &[Sd("A", 0, 16), Er("B"), Cm("C", 8)]),
            Rld(&[At(1, 1, 0x0C, 0), At(2, 1, 0x0C, 4), At(3, 1, 0x0C, 8)]),
            End,
        ],
        None,
    ),
    DeckCase(
        "R is not given",
        &[Esd(1, &[Sd("A", 0, 8)]), Rld(&[At(2, 1, 0x0C, 0)]), End],
        Some((18, 2)),
    ),
    DeckCase(
        "P is not given",
        &[Esd(1, &[Sd("A", 0, 8)]), Rld(&[At(1, 2, 0x0C, 0)]), End],
        Some((18, 2)),
    ),
    DeckCase(
        "P is a reference",
        &[
            Esd(1, &[Sd("A", 0, 8), Er("B")]),
            Rld(&[At(1, 2, 0x0C, 0)]),
            End,
        ],
        Some((18, 2)),
    ),
    DeckCase(
        "P is a common",
        &[
            Esd(1, &[Sd("A", 0, 8), Cm("B", 8)]),
            Rld(&[At(1, 2, 0x0C, 0)]),
            End,
        ],
        Some((18, 2)),
    ),
    DeckCase(
        "a label before its section",
        &[Esd(0, &[Ld("L", 0, 1)]), Esd(1, &[Pc(0, 8)]), End],
        None,
    ),
    DeckCase(
        "a label of no section",
        &[Esd(1, &[Sd("A", 0, 8), Ld("L", 0, 2)]), End],
        Some((18, 1)),
    ),
    DeckCase(
        "a label of a reference",
        &[Esd(1, &[Er("B"), Ld("L", 0, 1)]), End],
        Some((18, 1)),
    ),
    DeckCase(
        "a label's ID is not cut to 16 bits",
        &[Esd(1, &[Sd("A", 0, 8), Ld("L", 0, 0x10001)]), End],
        Some((18, 1)),
    ),
    DeckCase(
        "a label of ID zero",
        &[Esd(1, &[Sd("A", 0, 8), Ld("L", 0, 0)]), End],
        Some((18, 1)),
    ),
    DeckCase(
        "an entry in a section",
        &[Esd(1, &[Sd("A", 0, 8)]), EndAt(1, 4)],
        None,
    ),
    DeckCase(
        "an entry of no section",
        &[Esd(1, &[Sd("A", 0, 8)]), EndAt(2, 0)],
        Some((18, 2)),
    ),
    DeckCase(
        "an entry in a common",
        &[Esd(1, &[Sd("A", 0, 8), Cm("B", 8)]), EndAt(2, 0)],
        Some((18, 2)),
    ),
    DeckCase(
        "the first card is told",
        &[
            Esd(1, &[Sd("A", 0, 8)]),
            Txt(3, 0, 4),
            Txt(2, 0, 4),
            EndAt(2, 0),
        ],
        Some((18, 2)),
    ),
    DeckCase(
        "18 of a late card comes before 20 of an early one",
        &[Esd(1, &[Sd("A", 0, 8)]), Txt(1, 8, 1), Txt(2, 0, 1), End],
        Some((18, 3)),
    ),
];

const LENGTHS: &[DeckCase] = &[
    DeckCase(
        "two of length zero, and END's length",
        &[Esd(1, &[Sd("A", 0, 0), Sd("B", 0, 0)]), EndLength(5)],
        Some((19, 0)),
    ),
    DeckCase(
        "a private one of the two",
        &[
            Esd(1, &[Sd("A", 0, 0), Sd("B", 0, 8), Pc(0, 0)]),
            EndLength(5),
        ],
        Some((19, 0)),
    ),
    DeckCase(
        "two of length zero alone",
        &[Esd(1, &[Sd("A", 0, 0), Sd("B", 0, 0)]), End],
        None,
    ),
    DeckCase(
        "19 comes before 20",
        &[
            Esd(1, &[Sd("A", 0, 0), Pc(0, 0)]),
            Txt(1, 9, 1),
            EndLength(5),
        ],
        Some((19, 0)),
    ),
    DeckCase(
        "one of length zero",
        &[
            Esd(1, &[Sd("A", 0, 8), Pc(0, 0)]),
            Txt(2, 0, 5),
            EndLength(5),
        ],
        None,
    ),
    DeckCase(
        "a byte past END's length",
        &[
            Esd(1, &[Sd("A", 0, 8), Pc(0, 0)]),
            Txt(2, 0, 6),
            EndLength(5),
        ],
        Some((20, 2)),
    ),
    DeckCase(
        "a common has no part in it",
        &[
            Esd(1, &[Sd("A", 0, 0), Cm("B", 0)]),
            Txt(1, 0, 5),
            EndLength(5),
        ],
        None,
    ),
    DeckCase(
        "END's length is passed over",
        &[Esd(1, &[Sd("A", 0, 8)]), Txt(1, 8, 1), EndLength(16)],
        Some((20, 2)),
    ),
];

const PLACES: &[DeckCase] = &[
    DeckCase(
        "text up to the end",
        &[Esd(1, &[Sd("A", 0, 10)]), Txt(1, 8, 2), End],
        None,
    ),
    DeckCase(
        "text past the end",
        &[Esd(1, &[Sd("A", 0, 10)]), Txt(1, 8, 3), End],
        Some((20, 2)),
    ),
    DeckCase(
        "text from the start",
        &[Esd(1, &[Sd("A", 256, 10)]), Txt(1, 256, 10), End],
        None,
    ),
    DeckCase(
        "text before the start",
        &[Esd(1, &[Sd("A", 256, 10)]), Txt(1, 255, 1), End],
        Some((20, 2)),
    ),
    DeckCase(
        "a constant up to the end",
        &[Esd(1, &[Sd("A", 0, 10)]), Rld(&[At(1, 1, 0x0C, 6)]), End],
        None,
    ),
    DeckCase(
        "a constant past the end",
        &[Esd(1, &[Sd("A", 0, 10)]), Rld(&[At(1, 1, 0x0C, 7)]), End],
        Some((20, 2)),
    ),
    DeckCase(
        "a shorter one up to the end",
        &[Esd(1, &[Sd("A", 0, 10)]), Rld(&[At(1, 1, 0x08, 7)]), End],
        None,
    ),
    DeckCase(
        "a constant before the start",
        &[
            Esd(1, &[Sd("A", 256, 10)]),
            Rld(&[At(1, 1, 0x08, 255)]),
            End,
        ],
        Some((20, 2)),
    ),
    DeckCase(
        "a label at the end",
        &[Esd(1, &[Sd("A", 0, 10), Ld("L", 10, 1)]), End],
        None,
    ),
    DeckCase(
        "a label past the end",
        &[Esd(1, &[Sd("A", 0, 10), Ld("L", 11, 1)]), End],
        Some((20, 1)),
    ),
    DeckCase(
        "a label before the start",
        &[Esd(1, &[Sd("A", 256, 10), Ld("L", 255, 1)]), End],
        Some((20, 1)),
    ),
    DeckCase(
        "an entry at the end",
        &[Esd(1, &[Sd("A", 0, 10)]), EndAt(1, 10)],
        None,
    ),
    DeckCase(
        "an entry past the end",
        &[Esd(1, &[Sd("A", 0, 10)]), EndAt(1, 11)],
        Some((20, 2)),
    ),
    DeckCase(
        "a blank entry address is zero",
        &[Esd(1, &[Sd("A", 0, 10)]), EndAt(1, 0x404040)],
        None,
    ),
    DeckCase(
        "text in a section of length zero",
        &[Esd(1, &[Sd("A", 0, 0)]), Txt(1, 0, 1), End],
        Some((20, 2)),
    ),
    DeckCase(
        "a constant in it",
        &[Esd(1, &[Sd("A", 0, 0)]), Rld(&[At(1, 1, 0x08, 0)]), End],
        Some((20, 2)),
    ),
    DeckCase(
        "a label at its start",
        &[Esd(1, &[Sd("A", 0, 0), Ld("L", 0, 1)]), End],
        None,
    ),
    DeckCase(
        "a label behind it",
        &[Esd(1, &[Sd("A", 0, 0), Ld("L", 1, 1)]), End],
        Some((20, 1)),
    ),
    DeckCase(
        "an end past 24 bits",
        &[Esd(1, &[Sd("A", 0xFFFFF8, 16)]), Txt(1, 0xFFFFFF, 9), End],
        None,
    ),
    DeckCase(
        "text past such an end",
        &[Esd(1, &[Sd("A", 0xFFFFF8, 16)]), Txt(1, 0xFFFFFF, 10), End],
        Some((20, 2)),
    ),
    DeckCase(
        "sections may lie over each other",
        &[Esd(1, &[Sd("A", 0, 8), Sd("B", 4, 8)]), Txt(2, 4, 8), End],
        None,
    ),
    DeckCase(
        "the first card is told",
        &[
            Esd(1, &[Sd("A", 0, 10)]),
            Txt(1, 0, 1),
            Rld(&[At(1, 1, 0x0C, 8)]),
            Txt(1, 10, 1),
            EndAt(1, 11),
        ],
        Some((20, 3)),
    ),
];

const OVERLAPS: &[DeckCase] = &[
    DeckCase(
        "side by side",
        &[
            Esd(1, &[Sd("A", 0, 16)]),
            Rld(&[At(1, 1, 0x0C, 4), At(1, 1, 0x0C, 8)]),
            End,
        ],
        None,
    ),
    DeckCase(
        "the later one starts in the earlier",
        &[
            Esd(1, &[Sd("A", 0, 16)]),
            Rld(&[At(1, 1, 0x0C, 4)]),
            Rld(&[At(1, 1, 0x08, 6)]),
            End,
        ],
        Some((21, 3)),
    ),
    DeckCase(
        "the later one ends in the earlier",
        &[
            Esd(1, &[Sd("A", 0, 16)]),
            Rld(&[At(1, 1, 0x08, 6)]),
            Rld(&[At(1, 1, 0x0C, 4)]),
            End,
        ],
        Some((21, 3)),
    ),
    DeckCase(
        "on one card",
        &[
            Esd(1, &[Sd("A", 0, 16)]),
            Rld(&[At(1, 1, 0x0C, 4), At(1, 1, 0x0C, 7)]),
            End,
        ],
        Some((21, 2)),
    ),
    DeckCase(
        "the same place and width",
        &[
            Esd(1, &[Sd("A", 0, 16)]),
            Rld(&[At(1, 1, 0x0C, 4), At(1, 1, 0x0E, 4)]),
            End,
        ],
        None,
    ),
    DeckCase(
        "the same place and another width",
        &[
            Esd(1, &[Sd("A", 0, 16)]),
            Rld(&[At(1, 1, 0x0C, 4)]),
            Rld(&[At(1, 1, 0x08, 4)]),
            End,
        ],
        Some((21, 3)),
    ),
    DeckCase(
        "in two sections",
        &[
            Esd(1, &[Sd("A", 0, 16), Sd("B", 0, 16)]),
            Rld(&[At(1, 1, 0x0C, 4), At(1, 2, 0x0C, 6)]),
            End,
        ],
        None,
    ),
    DeckCase(
        "with one of three cards before",
        &[
            Esd(1, &[Sd("A", 0, 32)]),
            Rld(&[At(1, 1, 0x0C, 16)]),
            Rld(&[At(1, 1, 0x0C, 4)]),
            Rld(&[At(1, 1, 0x0C, 24)]),
            Rld(&[At(1, 1, 0x0C, 19)]),
            Rld(&[At(1, 1, 0x0C, 5)]),
            End,
        ],
        Some((21, 5)),
    ),
    DeckCase(
        "20 comes before 21",
        &[
            Esd(1, &[Sd("A", 0, 8)]),
            Rld(&[At(1, 1, 0x0C, 0), At(1, 1, 0x0C, 1)]),
            Txt(1, 8, 1),
            End,
        ],
        Some((20, 3)),
    ),
];

const NAMES: &[DeckCase] = &[
    DeckCase(
        "two sections",
        &[Esd(1, &[Sd("A", 0, 8)]), Esd(2, &[Sd("A", 8, 8)]), End],
        Some((22, 2)),
    ),
    DeckCase(
        "a section and a label",
        &[Esd(1, &[Sd("A", 0, 8), Ld("A", 0, 1)]), End],
        Some((22, 1)),
    ),
    DeckCase(
        "a section and a common",
        &[Esd(1, &[Cm("A", 8)]), Esd(2, &[Sd("A", 0, 8)]), End],
        Some((22, 2)),
    ),
    DeckCase(
        "two labels",
        &[
            Esd(1, &[Sd("A", 0, 8), Ld("L", 0, 1)]),
            Esd(0, &[Ld("L", 4, 1)]),
            End,
        ],
        Some((22, 2)),
    ),
    DeckCase(
        "two commons",
        &[Esd(1, &[Cm("A", 8), Sd("B", 0, 8), Cm("A", 8)]), End],
        Some((22, 1)),
    ),
    DeckCase(
        "two blank commons",
        &[Esd(1, &[Cm("", 8)]), Esd(2, &[Cm("", 8)]), End],
        Some((22, 2)),
    ),
    DeckCase(
        "private and blank sections, and a blank common",
        &[
            Esd(1, &[Pc(0, 8), Sd("", 0, 8)]),
            Esd(3, &[Pc(0, 8), Sd("", 0, 8), Cm("", 8)]),
            End,
        ],
        None,
    ),
    DeckCase(
        "references",
        &[
            Esd(1, &[Sd("A", 0, 8), Er("A"), Wx("A")]),
            Esd(4, &[Er("B"), Wx("B"), Er("B")]),
            End,
        ],
        None,
    ),
    DeckCase(
        "the first card is told",
        &[
            Esd(1, &[Sd("A", 0, 8), Sd("B", 0, 8)]),
            Esd(3, &[Sd("B", 0, 8)]),
            Esd(4, &[Sd("A", 0, 8)]),
            End,
        ],
        Some((22, 2)),
    ),
    DeckCase(
        "21 comes before 22",
        &[
            Esd(1, &[Sd("A", 0, 8), Sd("A", 0, 8)]),
            Rld(&[At(1, 1, 0x0C, 0), At(1, 1, 0x0C, 1)]),
            End,
        ],
        Some((21, 2)),
    ),
];

#[test]
fn uses_of_ids(rt: HostRuntime) -> Result<(), Fail> {
    try_all(&rt, rt.alloc(), USES)
}

#[test]
fn section_lengths(rt: HostRuntime) -> Result<(), Fail> {
    try_all(&rt, rt.alloc(), LENGTHS)
}

#[test]
fn places(rt: HostRuntime) -> Result<(), Fail> {
    try_all(&rt, rt.alloc(), PLACES)
}

#[test]
fn overlaps(rt: HostRuntime) -> Result<(), Fail> {
    try_all(&rt, rt.alloc(), OVERLAPS)
}

#[test]
fn defined_twice(rt: HostRuntime) -> Result<(), Fail> {
    try_all(&rt, rt.alloc(), NAMES)
}
