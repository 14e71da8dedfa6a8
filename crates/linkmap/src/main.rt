// LINKMAP: links decks from the tray in tray.bin as typed lines ask, and prints the map.

#![tactic(auto)]

ghost use Rattle.std.specs.Prelude.{◌≡◌, Some, None, MatchResult};
ghost use Rattle.linkmap.specs.Files.{file_fault};

mod session;

use console::without_newline;
use library::{LibraryFault, Tray};
use link::{Area, Link, Room};
use session::{IdTable, Session, print_refused};
use std::io::{BufRead, BufReader};
use std::{fs, io};

// The largest tray file that is read as a tray.
const MAX_FILE: usize = 40_000;

// Where the program is linked to.
const ORIGIN: u32 = 0;

const SIZE: u32 = 16_384;

// The tray of a file, or the first rule that the file breaks.
fn open_tray(bytes: Vec<u8>) -> Result<Tray, LibraryFault>
    ensures { MatchResult result (λ t. (file_fault bytes.items ≡ None) × (t.bytes ≡ bytes)) (λ f. file_fault bytes.items ≡ Some f) }
{
    if bytes.len() > MAX_FILE {
        return Err(LibraryFault::BadTrayLength);
    }
    Tray::open(bytes)
}

// Answers the lines of standard input, one after the other.
fn converse(rt: &HostRuntime, opened: Session) -> (Session, io::Result<()>) {
    let mut session = opened;
    let mut ids = IdTable::new();
    let mut input = match BufReader::new(rt.alloc(), rt.stdin()) {
        Ok(input) => input,
        Err(e) => return (session, Err(e)),
    };
    let mut line = Vec::new(rt.alloc());
    for _ in 0..u64::MAX {
        line.clear();
        match input.read_until(b'\n', &mut line) {
            Ok(0) => break,
            Ok(_) => {}
            Err(e) => return (session, Err(e)),
        }
        let (next, done) = session.serve(rt, &mut ids, without_newline(line.as_slice()));
        session = next;
        if let Err(e) = done {
            return (session, Err(e));
        }
    }
    (session, Ok(()))
}

fn run(rt: &HostRuntime, bytes: Vec<u8>) -> io::Result<()> {
    let tray = match open_tray(bytes) {
        Ok(tray) => tray,
        Err(fault) => return print_refused(rt, fault),
    };
    let area = match Area::new(Some(ORIGIN), SIZE) {
        Ok(area) => area,
        Err(fault) => return print_refused(rt, fault),
    };
    let room = Room::new(rt.alloc())?;
    let (session, done) = converse(rt, Session::Gathering(Link::open(tray, area, room)));
    let _ = session.scrap();
    done
}

fn main(rt: HostRuntime) -> io::Result<()> {
    match fs::read(&rt, "tray.bin") {
        Ok(bytes) => run(&rt, bytes),
        Err(e) => {
            eprintln!(rt; "linkmap: the tray in tray.bin cannot be read: {e}")?;
            Err(e)
        }
    }
}
