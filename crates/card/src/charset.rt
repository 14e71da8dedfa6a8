// How bytes print: a table from EBCDIC to ASCII, and back.
ghost use Rattle.std.specs.Prelude.{◌≡◌, MatchOption};
ghost use Rattle.card.specs.Shown.{shown, Unprintable, Prints};

// For each byte the character that it prints as; a full stop where it has none of its own.
const SHOWN: [u8; 256] = *b"\
    ................................\
    ................................\
    \x20..........................$....\
    ...........................#@...\
    ................................\
    ................................\
    .ABCDEFGHI.......JKLMNOPQR......\
    ..STUVWXYZ......0123456789......";

// The ASCII character that a byte prints as.
pub fn shown(byte: u8) -> u8
    ensures { result ≡ shown byte }
{
    SHOWN[byte as usize]
}

// The byte that prints as a character; none for a full stop and what is not in the table. The bytes themselves are walked, and not the
// table: so `shown`, which is proved once over all its entries, serves here too.
pub fn punched(character: u8) -> Option<u8>
    ensures { MatchOption result (Unprintable character) (λ b. Prints b character) }
{
    if character == b'.' {
        return None;
    }
    for byte in 0..=u8::MAX {
        if shown(byte) == character {
            return Some(byte);
        }
    }
    None
}
