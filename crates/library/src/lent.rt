// A library that is lent.
use crate::{Library, NoCard};
use card::Name;

impl<L: Library> Library for &mut L {
    ghost meaning = { λ s. L.Library.meaning s.now };

    ghost sound = { λ s. L.Library.sound s.now };

    fn count(&mut self, name: Name) -> Option<u16> {
        (**self).count(name)
    }

    fn card(&mut self, name: Name, i: u16, into: &mut [u8; 80]) -> Result<(), NoCard> {
        (**self).card(name, i, into)
    }
}
