// What cards hold, once read.
ghost use Rattle.std.specs.Prelude.{◌≡◌, ◌≤◌};
ghost use Rattle.card.specs.Items.{wide, defines};

use crate::name::Name;

// A strong reference (ER) has to be met before a program is fixed, a weak one (WX) need not be.
#[derive(Clone, Copy, PartialEq, Eq, Debug)]
pub enum Strength {
    Strong,
    Weak,
}

// An item: a section, a label, a reference or a common. A section without a name is private (PC). `S` tells which section a
// label lies in: by its ID on a card, by its place among the items in a deck that was read.
#[derive(Clone, Copy)]
pub enum Item<S> {
    Section {
        name: Option<Name>,
        address: u32,
        length: u32,
    },
    Label {
        name: Name,
        address: u32,
        section: S,
    },
    Reference {
        name: Name,
        strength: Strength,
    },
    Common {
        name: Name,
        length: u32,
    },
}

impl<S: Copy> Item<S> {
    // The name that an item defines: a section's, a label's or a common's.
    pub fn defines(self) -> Option<Name>
        ensures { result ≡ defines self }
    {
        match self {
            Item::Section { name, .. } => name,
            Item::Label { name, .. } | Item::Common { name, .. } => Some(name),
            Item::Reference { .. } => None,
        }
    }
}

// An ESD card: the ID of its first item that is no label, and one to three items.
#[derive(Clone, Copy)]
pub struct EsdCard {
    pub first_id: u16,
    pub items: [Option<Item<u32>>; 3],
}

// Text: the first `count` of the bytes, from an input address of a section on. On a card the section stands by its ID.
// Bytes with a count beside them are kept: texts are copied as plain data into reserved memory, and a vector of fixed capacity is
// no such data (its clone can fail).
#[derive(Clone, Copy)]
pub struct Text<S> {
    pub section: S,
    pub address: u32,
    pub count: u16,
    pub bytes: [u8; 56],
}

// The width of an address constant in bytes.
#[derive(Clone, Copy, PartialEq, Eq, Debug)]
pub enum Width {
    Three,
    Four,
}

impl From<Width> for u32 {
    ghost from_gives = { λ width n. n ≡ wide width };

    fn from(width: Width) -> u32 {
        match width {
            Width::Three => 3,
            Width::Four => 4,
        }
    }
}

// Whether relocation adds the shift or subtracts it.
#[derive(Clone, Copy, PartialEq, Eq, Debug)]
pub enum Sign {
    Plus,
    Minus,
}

// A relocation item: the constant at an input address of a section (P) moves with an item (R). On a card both stand by their IDs.
#[derive(Clone, Copy)]
pub struct Constant<S> {
    pub target: S,
    pub section: S,
    pub address: u32,
    pub width: Width,
    pub sign: Sign,
}

// The IDs R and P that were read, and stand for the constants behind them.
#[derive(Clone, Copy)]
pub(crate) struct Pointers {
    pub(crate) r: u16,
    pub(crate) p: u16,
}

// An RLD card: the first `count` of the places hold its items. A vector of fixed capacity would ask for a default of its
// elements, which a constant has not.
#[derive(Clone, Copy)]
pub struct RldCard {
    pub(crate) count: usize,
    pub(crate) places: [Constant<u16>; 14],
    ghost few: { count ≤ 14 },
}

// An entry point: an input address of a section, or a name. On a card the section stands by its ID.
#[derive(Clone, Copy)]
pub enum Entry<S> {
    Address { section: S, address: u32 },
    Named(Name),
}

// An END card: its entry point, and the length of the one section of ESD length zero.
#[derive(Clone, Copy, Default)]
pub struct EndCard {
    pub entry: Option<Entry<u16>>,
    pub length: Option<u32>,
}

#[derive(Clone, Copy)]
pub enum Card {
    Esd(EsdCard),
    Txt(Text<u16>),
    Rld(RldCard),
    End(EndCard),
    Sym,
}
