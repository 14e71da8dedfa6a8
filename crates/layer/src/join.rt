// Two libraries as one.
ghost use Rattle.layer.specs.Joined.{or_else, or_else_sound};

use card::Name;
use library::{Library, NoCard};

// The first answers for the names that it holds, the second for all others.
#[derive(Drop)]
pub struct Join<A, B> {
    pub first: A,
    pub second: B,
}

impl<A: Library, B: Library> Library for Join<A, B> {
    ghost meaning = { λ s name. or_else (A.Library.meaning s.first name) (B.Library.meaning s.second name) };

    ghost sound = { λ s name. or_else_sound (A.Library.meaning s.first name) (B.Library.meaning s.second name) (A.Library.sound s.first name) (B.Library.sound s.second name) };

    fn count(&mut self, name: Name) -> Option<u16> {
        // Not by `or_else`: what its closure leaves of the library that it borrows is not known, and the clause `same` stays open.
        match self.first.count(name) {
            Some(n) => Some(n),
            None => self.second.count(name),
        }
    }

    fn card(&mut self, name: Name, i: u16, into: &mut [u8; 80]) -> Result<(), NoCard> {
        match self.first.count(name) {
            Some(_) => self.first.card(name, i, into),
            None => self.second.card(name, i, into),
        }
    }
}
