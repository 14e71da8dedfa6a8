// Names from texts.
use card::{Name, punched};

// The name of a text of at most eight characters, with blanks behind it.
pub(crate) fn name(text: &str) -> Name {
    let mut bytes = [0x40; 8];
    for (byte, character) in bytes.iter_mut().zip(text.as_bytes()) {
        *byte = punched(*character).unwrap_or(0x40);
    }
    Name { bytes }
}
