// The largest decks and links: 512 cards and 256 IDs in a deck, 256 decks and 1,024 lines in a link.
use crate::bench::Expected::*;
use crate::bench::Step::*;
use crate::bench::{Bench, Expected, Plan, Step};
use crate::cases::{Case, try_all};
use crate::punch::Card::*;
use crate::punch::Item::*;
use crate::punch::{Deck, SYM, add_cards, add_header, tray_of};
use std::alloc::{AllocError, Global};
use std::process::Abort;
use std::test::Fail;

// One deck is taken so many times, and then the steps are made.
#[derive(Clone, Copy)]
struct ManyCase {
    why: &'static str,
    deck: &'static str,
    times: u16,
    steps: &'static [(Step, Expected)],
}

const SMALL: &[Deck] = &[
    Deck("ONE", &[Esd(1, &[Pc(0, 0)]), End]),
    Deck("REF", &[Esd(1, &[Er("X")]), End]),
    Deck("WIDE", &[Esd(1, &[Pc(0, 9)]), End]),
    Deck("NIL", &[End]),
];

const CASES: &[ManyCase] = &[
    ManyCase {
        why: "a deck of 512 cards",
        deck: "LONG",
        times: 1,
        steps: &[],
    },
    ManyCase {
        why: "decks of 256 and 257 IDs",
        deck: "FULL",
        times: 1,
        steps: &[(Include("OVER"), Refused(16, "OVER", 257))],
    },
    ManyCase {
        why: "the 257th deck, which is refused for that last",
        deck: "ONE",
        times: 256,
        steps: &[
            (Include("NONE"), Refused(10, "NONE", 0)),
            (Include("OVER"), Refused(16, "OVER", 257)),
            (Include("WIDE"), Refused(25, "WIDE", 1)),
            (Include("ONE"), Refused(26, "ONE", 0)),
            (Include("NIL"), Refused(26, "NIL", 0)),
        ],
    },
    ManyCase {
        why: "the 1,025th line",
        deck: "FULL",
        times: 4,
        steps: &[
            (Include("ONE"), Refused(26, "ONE", 0)),
            (Include("REF"), Refused(26, "REF", 0)),
            (Include("NIL"), Done),
        ],
    },
];

// Puts a deck of so many private sections of length zero behind the bytes of a tray, one to a card.
fn add_private(tray: &mut Vec<u8>, text: &str, sections: u16) -> Result<(), AllocError> {
    add_header(tray, text)?;
    // The number is the section's ID less one.
    for i in 0..sections {
        add_cards(tray, Esd(i.saturating_add(1), &[Pc(0, 0)]), 1)?;
    }
    add_cards(tray, End, 1)
}

// Puts a deck of 512 cards behind the bytes of a tray.
fn add_long(tray: &mut Vec<u8>) -> Result<(), AllocError> {
    add_header(tray, "LONG")?;
    add_cards(tray, Plain(0x02, SYM, 0), 511)?;
    add_cards(tray, End, 1)
}

// The small decks, one of 512 cards, and two of 256 and 257 IDs.
fn large_tray(heap: Global) -> Result<Vec<u8>, AllocError> {
    let mut tray = tray_of(heap, SMALL)?;
    add_long(&mut tray)?;
    add_private(&mut tray, "FULL", 256)?;
    add_private(&mut tray, "OVER", 257)?;
    Ok(tray)
}

impl ManyCase {
    fn all_steps(&self, heap: Global) -> Result<Vec<(Step, Expected)>, AllocError> {
        let mut steps = Vec::new(heap);
        for _ in 0..self.times {
            steps.push((Include(self.deck), Done))?;
        }
        steps.extend_from_slice(self.steps)?;
        Ok(steps)
    }
}

impl Case for ManyCase {
    fn passes(&self, rt: &impl Abort, bench: &mut Bench) -> Result<(), Fail> {
        let steps = self.all_steps(bench.heap)?;
        let plan = Plan::of_steps(self.why, 8, steps.as_slice());
        bench.link_tray(rt, large_tray(bench.heap)?, plan)
    }
}

#[test]
fn largest_decks_and_links(rt: HostRuntime) -> Result<(), Fail> {
    try_all(&rt, rt.alloc(), CASES)
}
