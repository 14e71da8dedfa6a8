// Two constants of one section are the same place and width, or share no byte.
ghost use Rattle.deck.specs.Overlaps.{overlap};

use crate::rules::Apart;
use card::Constant;

// The bytes that a constant takes, ordered by section and address.
#[derive(Clone, Copy, PartialEq, Eq, PartialOrd, Ord)]
pub(crate) struct Spot {
    section: usize,
    address: u32,
    width: u32,
}

impl Apart for Constant<usize> {
    type Key = Spot;

    ghost clashes = { overlap };

    fn clashes(&self, later: &Constant<usize>) -> bool {
        self.section == later.section
            && (self.address as u64) < later.address as u64 + u32::from(later.width) as u64
            && (later.address as u64) < self.address as u64 + u32::from(self.width) as u64
            && !(self.address == later.address && u32::from(self.width) == u32::from(later.width))
    }

    fn key(&self) -> Option<Spot> {
        Some(Spot {
            section: self.section,
            address: self.address,
            width: u32::from(self.width),
        })
    }

    // Two spots, of which the first sorts before the second, share a byte and differ.
    fn keys_meet(first: Spot, second: Spot) -> bool {
        first.section == second.section
            && (second.address as u64) < first.address as u64 + first.width as u64
            && first != second
    }
}
