// Lines that are commands, lines that are none, and lines that are printed.
use crate::command::{Command, command_of};
use crate::input::without_newline;
use crate::row::{entry_text, refused_text, row_text};
use card::Name;
use link::{MapKind, MapLine};

// A name by the number that its bytes make.
fn named(number: u64) -> Name {
    Name {
        bytes: number.to_be_bytes(),
    }
}

#[test]
fn commands(rt: HostRuntime) {
    let none = named(0x4040_4040_4040_4040);
    let main = named(0xD4C1_C9D5_4040_4040);
    let signs = named(0x40E9_F07C_7B5B_40F9);
    for (line, command) in [
        ("I MAIN", Command::Include(main)),
        ("E  Z0@#$ 9", Command::Entry(signs)),
        ("I ", Command::Include(none)),
        ("C", Command::Calls),
        ("F", Command::Fix),
        ("L", Command::FixOpen),
        ("M", Command::Map),
    ] {
        assert_eq!(rt; command_of(line.as_bytes()), Some(command), "{}", line);
    }
}

#[test]
fn no_commands(rt: HostRuntime) {
    for line in [
        "",
        "I",
        "IMAIN",
        "I NINECHARS",
        "I A.B",
        "I main",
        "C ",
        "c",
        "MM",
        "M\r",
        "X",
        "I é",
    ] {
        assert_eq!(rt; command_of(line.as_bytes()), None, "{}", line);
    }
}

#[test]
fn printed(rt: HostRuntime) {
    let row = MapLine {
        name: Name {
            bytes: [0xD4, 0xC1, 0xC9, 0xD5, 0x40, 0x40, 0x00, 0xF1],
        },
        kind: MapKind::Section,
        address: 0x00_9ABC,
        length: 0x01DE_F012,
    };
    assert_eq!(rt; row_text(row), *b"MAIN  .1 SD 009ABC DEF012");
    assert_eq!(rt; entry_text(0x12_3456), *b"ENTRY 123456");
    assert_eq!(rt; refused_text(7), *b"REFUSED 07");
}

#[test]
fn lines(rt: HostRuntime) {
    for (read, line) in [
        ("A\n", "A"),
        ("A", "A"),
        ("\n", ""),
        ("", ""),
        ("A\r\n", "A\r"),
        ("\n\n", "\n"),
    ] {
        assert_eq!(rt; without_newline(read.as_bytes()), line.as_bytes());
    }
}
