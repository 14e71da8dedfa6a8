// The lines that are printed, as ASCII characters. Not as `Display`: that writes text piece by piece, so each byte of a name would
// become a char and its UTF-8 be proved, where here one array has every byte.
ghost use Rattle.std.specs.Prelude.{◌≡◌, codes};
ghost use Rattle.console.specs.Text.{name_text, kind_text, hex_digit, hex_text, row_text, entry_text, refused_text};

use card::{Name, shown};
use link::{MapKind, MapLine};

// The two letters of a kind.
fn kind_text(kind: MapKind) -> [u8; 2]
    ensures { result ≡ kind_text kind }
{
    match kind {
        MapKind::Section => *b"SD",
        MapKind::Private => *b"PC",
        MapKind::Label => *b"LR",
        MapKind::Common => *b"CM",
        MapKind::Strong => *b"ER",
        MapKind::Weak => *b"WX",
    }
}

// The characters that a name's bytes print as.
// By its parts and not by `map`: what that gives is known as a relation only, and the clause did not close.
fn name_text(name: Name) -> [u8; 8]
    ensures { result ≡ name_text name }
{
    let [a, b, c, d, e, f, g, h] = name.bytes;
    [
        shown(a),
        shown(b),
        shown(c),
        shown(d),
        shown(e),
        shown(f),
        shown(g),
        shown(h),
    ]
}

// The hex digit of a number's low four bits.
fn hex_digit(n: u32) -> u8
    ensures { result ≡ hex_digit n }
{
    let digit = (n % 16) as u8;
    if digit < 10 {
        b'0' + digit
    } else {
        b'A' + (digit - 10)
    }
}

// A number's low 24 bits.
pub fn hex6(n: u32) -> [u8; 6]
    ensures { result ≡ hex_text n }
{
    [
        hex_digit(n / 0x10_0000),
        hex_digit(n / 0x1_0000),
        hex_digit(n / 0x1000),
        hex_digit(n / 0x100),
        hex_digit(n / 0x10),
        hex_digit(n),
    ]
}

// A row of the map: name, kind, address and length, a blank between. Copying the parts into a line of blanks was tried; what is left
// of the line after several copies did not close.
pub fn row_text(line: MapLine) -> [u8; 25]
    ensures { result ≡ row_text line }
{
    let name = name_text(line.name);
    let kind = kind_text(line.kind);
    let address = hex6(line.address);
    let length = hex6(line.length);
    [
        name[0], name[1], name[2], name[3], name[4], name[5], name[6], name[7], b' ', kind[0],
        kind[1], b' ', address[0], address[1], address[2], address[3], address[4], address[5],
        b' ', length[0], length[1], length[2], length[3], length[4], length[5],
    ]
}

// The line that tells where the program begins.
pub fn entry_text(address: u32) -> [u8; 12]
    ensures { result ≡ entry_text address }
{
    let [a, b, c, d, e, f] = hex6(address);
    [b'E', b'N', b'T', b'R', b'Y', b' ', a, b, c, d, e, f]
}

// The line that tells a refusal by the last two digits of its number.
pub fn refused_text(number: u8) -> [u8; 10]
    ensures { result ≡ refused_text number }
{
    let tens = b'0' + number / 10 % 10;
    let ones = b'0' + number % 10;
    [b'R', b'E', b'F', b'U', b'S', b'E', b'D', b' ', tens, ones]
}

// The answer to a line that is no command.
pub fn what_text() -> [u8; 4]
    ensures { result ≡ codes "WHAT" }
{
    *b"WHAT"
}
