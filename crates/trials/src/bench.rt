// A bench: libraries are linked step by step and fixed, and each answer is held to what it should be.
use crate::names::name;
use card::{Layer, Refusal};
use deck::{IdRows, NO_IDS};
use library::{Library, Tray};
use link::{Area, Called, Link, LinkFault, MapKind, MapLine, OpenNames, Program, Room};
use std::alloc::{AllocError, Global};
use std::process::Abort;
use std::test::Fail;
use table::Count;

// A call of the link. Steps are values and no closures, since they stand in constant tables of cases.
#[derive(Clone, Copy)]
pub(crate) enum Step {
    Include(&'static str),
    Call,
    Entry(&'static str),
}

// What a step has to answer, as the tables of cases write it: a deck's text in place of its number, and no layer.
#[derive(Clone, Copy)]
pub(crate) enum Expected {
    Done,
    NoneLeft,
    // number, deck and card
    Refused(u8, &'static str, u16),
    // deck, card and mark
    Flawed(&'static str, u16, u8),
}

// Name, kind, address and length of a line of the map.
pub(crate) type MapRow = (&'static str, MapKind, u32, u32);

// The steps of a link, what fix gives, an entry or the number of a refusal, and the map.
#[derive(Clone, Copy)]
pub(crate) struct Plan<'a> {
    pub(crate) why: &'static str,
    pub(crate) size: u32,
    pub(crate) steps: &'a [(Step, Expected)],
    pub(crate) open: OpenNames,
    // where it is asked
    pub(crate) fixed: Option<Result<u32, u8>>,
    // where it is asked
    pub(crate) map: Option<&'static [MapRow]>,
}

impl<'a> Plan<'a> {
    // Steps alone: neither what fix gives nor the map is asked.
    pub(crate) fn of_steps(
        why: &'static str,
        size: u32,
        steps: &'a [(Step, Expected)],
    ) -> Plan<'a> {
        Plan {
            why,
            size,
            steps,
            open: OpenNames::Refused,
            fixed: None,
            map: None,
        }
    }
}

// The memory that every link uses again.
#[derive(Drop)]
pub(crate) struct Bench {
    pub(crate) heap: Global,
    room: Option<Room>,
    rows: IdRows,
    count: Count,
}

// The layer that a rule belongs to.
fn layer_of(number: u8) -> Layer {
    match number {
        1..=8 | 10 | 11 => Layer::Library,
        12..=17 => Layer::Card,
        18..=22 => Layer::Deck,
        9 | 23..=31 => Layer::Link,
        _ => Layer::Board,
    }
}

// What the rule of that number has to tell of a card of a deck.
pub(crate) fn telling(number: u8, deck: &str, card: u16) -> Refusal {
    Refusal {
        number,
        deck: name(deck).number(),
        card,
        layer: layer_of(number),
        mark: None,
    }
}

fn answer_of(expected: Expected) -> Result<Called, Refusal> {
    match expected {
        Expected::Done => Ok(Called::Taken),
        Expected::NoneLeft => Ok(Called::NoneLeft),
        Expected::Refused(number, deck, card) => Err(telling(number, deck, card)),
        Expected::Flawed(deck, card, mark) => Err(Refusal {
            mark: Some(mark),
            ..telling(11, deck, card)
        }),
    }
}

fn line_of(row: MapRow) -> MapLine {
    let (text, kind, address, length) = row;
    MapLine {
        name: name(text),
        kind,
        address,
        length,
    }
}

// What a call answers that takes what it is given, if it is not refused.
fn done(answer: Result<(), LinkFault>) -> Result<Called, Refusal> {
    answer?;
    Ok(Called::Taken)
}

pub(crate) fn open_tray(bytes: Vec<u8>) -> Result<Tray, Fail> {
    Tray::open(bytes).map_err(|_| Fail::new("the tray is refused"))
}

fn area_of(size: u32) -> Result<Area, Fail> {
    Area::new(None, size).map_err(|_| Fail::new("the area is refused"))
}

// The map has these lines and no other.
fn check_map<L>(rt: &impl Abort, program: &Program<L>, rows: &[MapRow], why: &str) {
    assert_eq!(rt; program.line(0), None, "{why}");
    for (row, n) in rows.iter().zip(1usize..) {
        assert_eq!(rt; program.line(n), Some(line_of(*row)), "{why}");
    }
    let behind = rows.len().saturating_add(1);
    assert_eq!(rt; program.line(behind), None, "{why}");
}

// The entry, or what the program is refused with.
fn entry_of<L>(program: &Program<L>) -> Result<u32, Refusal> {
    Ok(program.entry()?)
}

// The fix gave what it should, and the check before it answered so too.
fn check_fix<L>(
    rt: &impl Abort,
    program: &Program<L>,
    checked: Result<Called, Refusal>,
    fixed: Result<u32, u8>,
    why: &str,
) {
    match fixed {
        Ok(entry) => {
            assert_eq!(rt; checked, Ok(Called::Taken), "{why}");
            assert_eq!(rt; entry_of(program), Ok(entry), "{why}");
        }
        Err(number) => {
            let told = telling(number, "", 0);
            assert_eq!(rt; checked, Err(told), "{why}");
            assert_eq!(rt; entry_of(program), Err(told), "{why}");
            check_map(rt, program, &[], why);
        }
    }
}

fn check_program<L>(
    rt: &impl Abort,
    program: &Program<L>,
    checked: Result<Called, Refusal>,
    plan: Plan<'_>,
) {
    if let Some(fixed) = plan.fixed {
        check_fix(rt, program, checked, fixed, plan.why);
    }
    if let Some(rows) = plan.map {
        check_map(rt, program, rows, plan.why);
    }
}

impl Bench {
    pub(crate) fn new(heap: Global) -> Result<Bench, AllocError> {
        Ok(Bench {
            heap,
            room: Some(Room::new(heap)?),
            rows: NO_IDS,
            count: Count { rows: 0 },
        })
    }

    fn make<L: Library>(&mut self, link: &mut Link<L>, step: Step) -> Result<Called, Refusal> {
        match step {
            Step::Include(text) => done(link.include(name(text), &mut self.rows, &mut self.count)),
            Step::Call => Ok(link.call(&mut self.rows, &mut self.count)?),
            Step::Entry(text) => done(link.entry(name(text))),
        }
    }

    // Makes the steps, each of which has to answer as expected.
    fn gather<L: Library>(&mut self, rt: &impl Abort, link: &mut Link<L>, plan: Plan<'_>) {
        for (step, expected) in plan.steps {
            let answer = self.make(link, *step);
            assert_eq!(rt; answer, answer_of(*expected), "{}", plan.why);
        }
    }

    // Links a library as planned.
    pub(crate) fn link<L: Library + Drop>(
        &mut self,
        rt: &impl Abort,
        library: L,
        plan: Plan<'_>,
    ) -> Result<(), Fail> {
        let area = area_of(plan.size)?;
        let room = self.room.take().ok_or("the room is gone")?;
        let mut link = Link::open(library, area, room);
        self.gather(rt, &mut link, plan);
        let checked = done(link.check(plan.open));
        let program = link.fix(plan.open);
        check_program(rt, &program, checked, plan);
        let (_, room) = program.scrap();
        self.room = Some(room);
        Ok(())
    }

    // The same over a tray of these bytes.
    pub(crate) fn link_tray(
        &mut self,
        rt: &impl Abort,
        tray: Vec<u8>,
        plan: Plan<'_>,
    ) -> Result<(), Fail> {
        self.link(rt, open_tray(tray)?, plan)
    }
}
