// Tables of cases, and how each case is tried.
use crate::bench::{Bench, Expected, MapRow, Plan, Step};
use crate::punch::{Card, Deck, add_deck, tray_of};
use link::OpenNames;
use std::alloc::{AllocError, Global};
use std::process::Abort;
use std::test::Fail;

// A case of a table.
pub(crate) trait Case {
    fn passes(&self, rt: &impl Abort, bench: &mut Bench) -> Result<(), Fail>;
}

// What is tried, a deck's cards, and the number and card that its include is refused with.
#[derive(Clone, Copy)]
pub(crate) struct DeckCase(
    pub(crate) &'static str,
    pub(crate) &'static [Card],
    pub(crate) Option<(u8, u16)>,
);

// Decks are included one after the other; all but the last are taken.
#[derive(Clone, Copy)]
pub(crate) struct IncludeCase {
    pub(crate) why: &'static str,
    pub(crate) decks: &'static [Deck],
    pub(crate) size: u32,
    // what the last include is refused with: number and card
    pub(crate) told: Option<(u8, u16)>,
}

// No step is refused; the fix gives an entry, or is refused. The area has 24 bytes.
#[derive(Clone, Copy)]
pub(crate) struct FixCase {
    pub(crate) why: &'static str,
    pub(crate) decks: &'static [Deck],
    pub(crate) steps: &'static [(Step, Expected)],
    pub(crate) open: OpenNames,
    pub(crate) fixed: Result<u32, u8>,
}

// The steps answer as told, open names are permitted, and the program has this entry and this map.
#[derive(Clone, Copy)]
pub(crate) struct MapCase {
    pub(crate) why: &'static str,
    pub(crate) decks: &'static [Deck],
    pub(crate) size: u32,
    pub(crate) steps: &'static [(Step, Expected)],
    pub(crate) map: &'static [MapRow],
    pub(crate) entry: u32,
}

// What the include of a deck has to answer.
fn included(deck: &'static str, told: Option<(u8, u16)>) -> Expected {
    match told {
        Some((number, card)) => Expected::Refused(number, deck, card),
        None => Expected::Done,
    }
}

// The includes of the decks, of which only the last may be refused.
fn include_steps(
    heap: Global,
    decks: &[Deck],
    told: Option<(u8, u16)>,
) -> Result<Vec<(Step, Expected)>, AllocError> {
    let mut steps = Vec::new(heap);
    if let Some((Deck(last, _), others)) = decks.split_last() {
        for Deck(text, _) in others {
            steps.push((Step::Include(text), Expected::Done))?;
        }
        steps.push((Step::Include(last), included(last, told)))?;
    }
    Ok(steps)
}

impl Case for DeckCase {
    fn passes(&self, rt: &impl Abort, bench: &mut Bench) -> Result<(), Fail> {
        let mut tray = Vec::new(bench.heap);
        add_deck(&mut tray, "D", self.1)?;
        let steps = [(Step::Include("D"), included("D", self.2))];
        bench.link_tray(rt, tray, Plan::of_steps(self.0, 1024, &steps))
    }
}

impl Case for IncludeCase {
    fn passes(&self, rt: &impl Abort, bench: &mut Bench) -> Result<(), Fail> {
        let steps = include_steps(bench.heap, self.decks, self.told)?;
        let plan = Plan::of_steps(self.why, self.size, steps.as_slice());
        bench.link_tray(rt, tray_of(bench.heap, self.decks)?, plan)
    }
}

impl Case for FixCase {
    fn passes(&self, rt: &impl Abort, bench: &mut Bench) -> Result<(), Fail> {
        let plan = Plan {
            why: self.why,
            size: 24,
            steps: self.steps,
            open: self.open,
            fixed: Some(self.fixed),
            map: None,
        };
        bench.link_tray(rt, tray_of(bench.heap, self.decks)?, plan)
    }
}

impl Case for MapCase {
    fn passes(&self, rt: &impl Abort, bench: &mut Bench) -> Result<(), Fail> {
        let plan = Plan {
            why: self.why,
            size: self.size,
            steps: self.steps,
            open: OpenNames::Permitted,
            fixed: Some(Ok(self.entry)),
            map: Some(self.map),
        };
        bench.link_tray(rt, tray_of(bench.heap, self.decks)?, plan)
    }
}

// Tries all cases of a table.
pub(crate) fn try_all<C: Case>(rt: &impl Abort, heap: Global, cases: &[C]) -> Result<(), Fail> {
    let mut bench = Bench::new(heap)?;
    for case in cases {
        case.passes(rt, &mut bench)?;
    }
    Ok(())
}
