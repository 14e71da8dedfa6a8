// Names of decks, sections, labels, references and commons.
ghost use Rattle.std.specs.Prelude.{◌≡◌};
ghost use Rattle.card.specs.Names.{is_blank, number_of, blank_name};

// Any eight bytes, as they are punched.
#[derive(Clone, Copy, PartialEq, Eq, Debug)]
pub struct Name {
    pub bytes: [u8; 8],
}

impl Name {
    // The blank name, eight times hex 40.
    pub fn blank() -> Name
        ensures { result ≡ blank_name }
    {
        Name {
            bytes: [0x40, 0x40, 0x40, 0x40, 0x40, 0x40, 0x40, 0x40],
        }
    }

    pub fn is_blank(self) -> bool
        ensures { result ≡ is_blank self }
    {
        self == Name::blank()
    }

    // The name as one number, its first byte highest. A method and no `From`, as the order of the bytes is what it decides.
    pub fn number(self) -> u64
        ensures { result ≡ number_of self }
    {
        u64::from_be_bytes(self.bytes)
    }
}

// Not derived: that would be eight zero bytes.
impl Default for Name {
    ghost is_default = { λ name. name ≡ blank_name };

    fn default() -> Name {
        Name::blank()
    }
}
