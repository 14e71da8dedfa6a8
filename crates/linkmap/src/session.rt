// A session: a link that gathers decks as lines ask, and then the program that it was fixed into.
use card::Refusal;
use console::{Command, command_of, entry_text, refused_text, row_text, what_text};
use deck::{IdRows, NO_IDS};
use library::Tray;
use link::{Called, Link, LinkFault, OpenNames, Program, Room};
use std::io;
use std::io::Write;
use table::Count;

// More calls than a link can answer by anything but none left.
const MAX_CALLS: u16 = 1025;

const MAX_LINES: usize = 1024;

// The table of a deck's IDs, lent to each include and call.
#[derive(Clone, Copy)]
pub struct IdTable {
    rows: IdRows,
    count: Count,
}

impl IdTable {
    pub fn new() -> IdTable {
        IdTable {
            rows: NO_IDS,
            count: Count { rows: 0 },
        }
    }
}

pub enum Session {
    Gathering(Link<Tray>),
    Fixed(Program<Tray>),
}

// Prints characters, and ends their line.
fn print_line(rt: &HostRuntime, text: &[u8]) -> io::Result<()> {
    rt.stdout().write_all(text)?;
    rt.stdout().write_all(b"\n")
}

pub fn print_refused(rt: &HostRuntime, fault: impl Into<Refusal>) -> io::Result<()> {
    print_line(rt, &refused_text(fault.into().number))
}

// Prints the refusal of a call of the link, if it was refused.
fn report(rt: &HostRuntime, answer: Result<(), LinkFault>) -> io::Result<()> {
    if let Err(fault) = answer {
        print_refused(rt, fault)?;
    }
    Ok(())
}

// Calls until none is left, and prints each refusal.
fn call_all(rt: &HostRuntime, link: &mut Link<Tray>, ids: &mut IdTable) -> io::Result<()> {
    for _ in 0..MAX_CALLS {
        match link.call(&mut ids.rows, &mut ids.count) {
            Ok(Called::NoneLeft) => return Ok(()),
            Ok(Called::Taken) => {}
            Err(fault) => print_refused(rt, fault)?,
        }
    }
    Ok(())
}

// Fixes the link if the check accepts it; else prints the refusal and goes on gathering.
fn fix_link(rt: &HostRuntime, link: Link<Tray>, open: OpenNames) -> (Session, io::Result<()>) {
    match link.check(open) {
        Ok(()) => (Session::Fixed(link.fix(open)), Ok(())),
        Err(fault) => (Session::Gathering(link), print_refused(rt, fault)),
    }
}

// The map: a row a line, and the entry.
fn print_map(rt: &HostRuntime, program: &Program<Tray>) -> io::Result<()> {
    for line in (1..=MAX_LINES).map_while(|n| program.line(n)) {
        print_line(rt, &row_text(line))?;
    }
    match program.entry() {
        Ok(address) => print_line(rt, &entry_text(address)),
        Err(fault) => print_refused(rt, fault),
    }
}

// Answers a line while the link gathers. Commands are told apart by a match, as their letters are: there are six, and closures
// would each have to hand the link on.
fn gather(
    rt: &HostRuntime,
    link: Link<Tray>,
    ids: &mut IdTable,
    command: Option<Command>,
) -> (Session, io::Result<()>) {
    let mut link = link;
    let done = match command {
        Some(Command::Fix) => return fix_link(rt, link, OpenNames::Refused),
        Some(Command::FixOpen) => return fix_link(rt, link, OpenNames::Permitted),
        Some(Command::Include(name)) => report(
            rt,
            link.include(name, &mut ids.rows, &mut ids.count),
        ),
        Some(Command::Entry(name)) => report(rt, link.entry(name)),
        Some(Command::Calls) => call_all(rt, &mut link, ids),
        Some(Command::Map) | None => print_line(rt, &what_text()),
    };
    (Session::Gathering(link), done)
}

// Answers a line after the accepted fix: only the map is good.
fn tell(rt: &HostRuntime, program: &Program<Tray>, command: Option<Command>) -> io::Result<()> {
    match command {
        Some(Command::Map) => print_map(rt, program),
        _ => print_line(rt, &what_text()),
    }
}

impl Session {
    // Answers one line.
    pub fn serve(
        self,
        rt: &HostRuntime,
        ids: &mut IdTable,
        line: &[u8],
    ) -> (Session, io::Result<()>) {
        let command = command_of(line);
        match self {
            Session::Gathering(link) => gather(rt, link, ids, command),
            Session::Fixed(program) => {
                let done = tell(rt, &program, command);
                (Session::Fixed(program), done)
            }
        }
    }

    // Ends the session, and gives the tray and the room back.
    pub fn scrap(self) -> (Tray, Room) {
        match self {
            Session::Gathering(link) => link.scrap(),
            Session::Fixed(program) => program.scrap(),
        }
    }
}
